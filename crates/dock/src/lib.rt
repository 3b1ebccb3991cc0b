// The dock: its types. What every call of it does stands in specs/, one file a call; the code of the calls stands in the crates above.
//
// An endpoint is a value: a call takes it and gives it back. Four tables are lent beside it, as slices of numbers: the ring (four words a slot),
// the finished table (four words a place), the request records (twelve words a record) and the packet records (one word a packet).
#![tactic(auto)]

ghost use Rattle.std.specs.Prelude.{◌≡◌, Err};
ghost use Rattle.base.specs.First.{pick};
ghost use Rattle.dock.specs.Refusals.{number, done};

use mask::Occupancy;
use ring::Position;

// The ring's numbers: its slots, L in document 01, and the address of slot 0.
#[derive(Clone, Copy)]
pub struct Shape {
    pub slots: usize,
    pub base: u64,
}

// Who the endpoint is: slot id and dci, and the highest address that its controller reaches.
#[derive(Clone, Copy)]
pub struct Identity {
    pub slot: u8,
    pub dci: u8,
    pub mask: u64,
}

// The settings of a periodic endpoint: max packet size, burst and interval; and the next frame number.
#[derive(Clone, Copy)]
pub struct Periodic {
    pub packet: u16,
    pub burst: u8,
    pub interval: u8,
    pub frame: u16,
}

// What a submission takes and a completion gives back: the next id, the held records, the TRBs of the requests in flight.
#[derive(Clone, Copy)]
pub struct Account {
    pub next: u64,
    pub occupancy: Occupancy,
    pub outstanding: u64,
}

#[derive(Clone, Copy)]
pub struct Flags {
    pub halted: bool,
    pub reset: bool,
}

// The submission under way: its record, how many of its TRBs are stored, the running address, and the place and right cycle of its first TRB.
#[derive(Clone, Copy)]
pub struct Work {
    pub busy: bool,
    pub number: usize,
    pub stored: usize,
    pub address: u64,
    pub place: usize,
    pub cycle: bool,
}

#[derive(Clone, Copy)]
pub struct Endpoint {
    pub at: Position,
    pub shape: Shape,
    pub who: Identity,
    pub periodic: Periodic,
    pub account: Account,
    pub flags: Flags,
    pub work: Work,
}

// What a request asks for. A control request has its setup's fields.
#[derive(Clone, Copy)]
pub enum What {
    Control {
        request_type: u8,
        request: u8,
        value: u16,
        index: u16,
    },
    Bulk {
        incoming: bool,
    },
    Interrupt {
        incoming: bool,
    },
    Isoch {
        incoming: bool,
    },
}

// A request: what it asks for, and its buffer's address and length. The packet lengths of an isochronous one stand beside it, as a slice.
#[derive(Clone, Copy)]
pub struct Request {
    pub what: What,
    pub address: u64,
    pub length: u64,
}

// Why a call is refused: document 01's "When the dock says no". `number` has its number there. (7 to 9, and 10 of a reclaim, say what a request came to.)
// `Other` is any other number: no call is refused with it, and what tells, saves or writes an answer takes it as it is.
#[derive(Clone, Copy, PartialEq, Eq)]
pub enum Refusal {
    Unfit,
    QueueFull,
    TooLong,
    RecordsFull,
    OutOfReach,
    NotInFlight,
    NotUnderWay,
    ForeignEvent,
    Busy,
    OutsideLimits,
    Other(u32),
}

impl Refusal {
    pub fn number(self) -> u32
        ensures { result ≡ number self }
    {
        match self {
            Refusal::Unfit => 1,
            Refusal::QueueFull => 2,
            Refusal::TooLong => 3,
            Refusal::RecordsFull => 4,
            Refusal::OutOfReach => 5,
            Refusal::NotInFlight => 6,
            Refusal::NotUnderWay => 10,
            Refusal::ForeignEvent => 11,
            Refusal::Busy => 12,
            Refusal::OutsideLimits => 13,
            Refusal::Other(number) => number,
        }
    }
}

// One row of a call's refusals: where the test holds the call is refused with this.
pub fn refuse(test: bool, refusal: Refusal) -> Result<(), Refusal>
    ensures { result ≡ pick test (Err refusal) done }
{
    if test { Err(refusal) } else { Ok(()) }
}

// The answers; `Numbers` in specs/ gives the number and the values of every case.

// Of a store: the slot that changed; after a submission's last store also its id and the doorbell word.
#[derive(Clone, Copy)]
pub enum Stored {
    Slot(usize),
    Last { slot: usize, id: u64, bell: u32 },
}

// Of a whole submission: its id and the doorbell word.
#[derive(Clone, Copy)]
pub struct Submitted {
    pub id: u64,
    pub bell: u32,
}

// What a request came to that is done: its id, the bytes moved, whether there are any and they came in; and where its packet lengths stand.
#[derive(Clone, Copy)]
pub struct Completion {
    pub id: u64,
    pub length: u64,
    pub yes: bool,
    pub number: usize,
    pub packets: usize,
}

// Of a reclaim: what the request came to, or nothing yet.
#[derive(Clone, Copy)]
pub enum Reclaimed {
    Done(Completion),
    Cancelled,
    Failed(u32),
    Mismatch,
    Nothing,
}

// Of the begin of a reset, where there is something to do: two commands.
#[derive(Clone, Copy)]
pub struct ResetCommands {
    pub reset: trb::Words,
    pub dequeue: trb::Words,
}

// An answer with the endpoint afterwards, for the calls that change it.
#[derive(Clone, Copy)]
pub struct After<T> {
    pub answer: Result<T, Refusal>,
    pub endpoint: Endpoint,
}
