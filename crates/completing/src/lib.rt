// A completion: the record is freed, and the answer is the first of 7, 9 and 8 that holds, or the length.
#![tactic(auto)]

ghost use Rattle.std.specs.Prelude.{◌≡◌, not, ◌&&◌, ◌<◌, ltb, eqb, length, Ok};
ghost use Rattle.base.specs.First.{first};
ghost use Rattle.sizes.specs.Sizes.{record_count};
ghost use Rattle.dock.specs.Reclaim.{leave, mismatched, complete_tests, packets_told, completion, complete_answer, complete, nothing, reclaim_stopped};
ghost use Rattle.checks.specs.Shown.{Shown};

use dock::{Account, After, Completion, Endpoint, Flags, Reclaimed};
use records::{Kind, Record};

#[tactic(auto, unfolding(dock::specs::Reclaim::mismatched))]
fn is_mismatched(v: Record) -> bool
    ensures { result ≡ mismatched v }
{
    v.has_kind(Kind::Isoch) && v.count != v.given
}

fn says_yes(size: u64, incoming: bool) -> bool
    ensures { result ≡ (ltb 0 size && incoming) }
{
    0 < size && incoming
}

// Only an isochronous request has packets to tell of, whatever the record of another says.
fn packets_told(v: Record) -> usize
    ensures { result ≡ packets_told v }
{
    if v.has_kind(Kind::Isoch) {
        v.given as usize
    } else {
        0
    }
}

// A stall halts the endpoint, but not that of a cancelled request.
fn halts(cancelled: bool, code: u32) -> bool
    ensures { result ≡ (not cancelled && eqb code 6) }
{
    !cancelled && code == 6
}

// A request whose completion is looked for: the endpoint, what the record says, and the record's number, which is one of the table's.
#[derive(Clone, Copy)]
pub struct Claim {
    pub endpoint: Endpoint,
    pub record: Record,
    pub number: usize,
    ghost held: { number < record_count },
}

impl Claim {
    // The endpoint with the record freed, so many TRBs less outstanding, and halted where it is to be.
    #[tactic(auto, unfolding(dock::specs::Reclaim::leave))]
    pub fn left(self, count: u64, halts: bool) -> Endpoint
        ensures { result ≡ leave self.endpoint self.number count halts }
    {
        let e = self.endpoint;
        let account = Account {
            occupancy: e.account.occupancy.freed(self.number),
            outstanding: e.account.outstanding.saturating_sub(count),
            ..e.account
        };
        let flags = Flags {
            halted: e.flags.halted || halts,
            ..e.flags
        };
        Endpoint {
            account,
            flags,
            ..e
        }
    }

    // A stopped record is freed; its TRBs left flight when it was retired.
    pub fn stopped(self) -> After<Reclaimed>
        ensures { result ≡ reclaim_stopped self.endpoint self.record self.number }
    {
        After {
            answer: Ok(Reclaimed::Cancelled),
            endpoint: self.left(0, false),
        }
    }

    fn came_to(self, size: u64) -> Completion
        ensures { result ≡ completion self.record self.number size }
    {
        let v = self.record;
        Completion {
            id: v.id,
            length: size,
            yes: says_yes(size, v.incoming),
            number: self.number,
            packets: packets_told(v),
        }
    }

    // "for a completion 7, 9, 8": the first that holds, or what the request came to.
    #[tactic(auto, unfolding(dock::specs::Reclaim::complete_tests))]
    fn answer_of(self, code: u32, fails: bool, size: u64) -> Reclaimed
        ensures { Ok result ≡ complete_answer (first (complete_tests self.record fails)) self.record self.number code size }
    {
        let v = self.record;
        if v.cancelled {
            return Reclaimed::Cancelled;
        }
        if is_mismatched(v) {
            return Reclaimed::Mismatch;
        }
        if fails {
            return Reclaimed::Failed(code);
        }
        Reclaimed::Done(self.came_to(size))
    }

    #[tactic(auto, unfolding(dock::specs::Reclaim::complete))]
    pub fn completed(self, code: u32, fails: bool, size: u64) -> After<Reclaimed>
        ensures { result ≡ complete self.endpoint self.record self.number code fails size }
    {
        let v = self.record;
        After {
            answer: Ok(self.answer_of(code, fails, size)),
            endpoint: self.left(v.count, halts(v.cancelled, code)),
        }
    }
}

// A request in flight, and the finished table in which its events are looked for: that of the ring, and the request's place one of the slots 0 to L-2.
#[derive(Clone, Copy)]
pub struct Flight<'a> {
    pub claim: Claim,
    pub finished: &'a [u32],
    ghost shown: { Shown claim.endpoint.shape.slots (length finished.now) claim.record.place claim.number },
}

// Row 10: nothing.
pub fn unfinished(e: Endpoint) -> After<Reclaimed>
    ensures { result ≡ nothing e }
{
    After {
        answer: Ok(Reclaimed::Nothing),
        endpoint: e,
    }
}
