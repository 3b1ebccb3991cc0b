// The request records: twelve words for each of 64 records. Which of them are held stands in the occupancy, beside the table; a held record is
// in flight or stopped. Every read is total: whatever words stand in the table, they say something. A record holds the words of its kind and its
// state as they stand; `Kind` and `State` read them.
#![tactic(auto)]

ghost use Rattle.std.specs.Prelude.{◌≡◌, ◌+◌, ◌*◌, ◌<◌, length};
ghost use Rattle.base.specs.Fields.{flag};
ghost use Rattle.base.specs.Part.{put};
ghost use Rattle.sizes.specs.Sizes.{record_count, record_words, records_size};
ghost use Rattle.records.specs.Kinds.{kind_number, kind_in, kind_is};
ghost use Rattle.records.specs.States.{state_number, state_in, state_is};
ghost use Rattle.records.specs.Records.{record_of, part_of, record_at, record_list, set_word};

use sizes::RECORD_WORDS;

// The kinds of a request. Their numbers stand in `sizes`.
#[derive(Clone, Copy, PartialEq, Eq)]
pub enum Kind {
    Control,
    Bulk,
    Interrupt,
    Isoch,
}

impl Kind {
    // The kind that a word says, if it says one.
    pub fn from_word(word: u64) -> Option<Kind>
        ensures { result ≡ kind_in word }
    {
        match word {
            sizes::CONTROL => Some(Kind::Control),
            sizes::BULK => Some(Kind::Bulk),
            sizes::INTERRUPT => Some(Kind::Interrupt),
            sizes::ISOCH => Some(Kind::Isoch),
            _ => None,
        }
    }
}

impl From<Kind> for u64 {
    ghost from_gives = { λ kind word. word ≡ kind_number kind };

    fn from(kind: Kind) -> u64 {
        match kind {
            Kind::Control => sizes::CONTROL,
            Kind::Bulk => sizes::BULK,
            Kind::Interrupt => sizes::INTERRUPT,
            Kind::Isoch => sizes::ISOCH,
        }
    }
}

// The states of a held record.
#[derive(Clone, Copy, PartialEq, Eq)]
pub enum State {
    InFlight,
    Stopped,
}

impl State {
    // The state that a word says, if it says one.
    pub fn from_word(word: u64) -> Option<State>
        ensures { result ≡ state_in word }
    {
        match word {
            1 => Some(State::InFlight),
            2 => Some(State::Stopped),
            _ => None,
        }
    }
}

impl From<State> for u64 {
    ghost from_gives = { λ state word. word ≡ state_number state };

    fn from(state: State) -> u64 {
        match state {
            State::InFlight => 1,
            State::Stopped => 2,
        }
    }
}

// What a request's later stores and its completion need. Its kind and its state are their words, any numbers, so that every word is told and put as it
// stands: `Kind::from_word` and `State::from_word` read them.
#[derive(Clone, Copy)]
pub struct Record {
    pub id: u64,
    pub kind: u64,
    pub incoming: bool,
    pub state: u64,
    pub cancelled: bool,
    pub address: u64,
    pub length: u64,
    pub setup: u64,
    pub place: u64,
    pub count: u64,
    pub given: u64,
    pub recorded: u64,
}

impl Record {
    // Does the kind word say this kind?
    pub fn has_kind(self, kind: Kind) -> bool
        ensures { result ≡ kind_is self.kind (kind_number kind) }
    {
        self.kind == u64::from(kind)
    }

    // Does the state word say this state?
    pub fn has_state(self, state: State) -> bool
        ensures { result ≡ state_is self.state (state_number state) }
    {
        self.state == u64::from(state)
    }
}

// The words of a record that change while it is held.
pub const STATE_WORD: usize = 3;

pub const CANCELLED: usize = 4;

pub const RECORDED: usize = 11;

// What twelve words say, by their places: a pattern of twelve names needs an arm for any other length, and is no plainer.
fn record_of(part: &[u64]) -> Record
    requires { length part.now ≡ record_words }
    ensures { result ≡ record_of (part_of part.now) }
{
    Record {
        id: part[0],
        kind: part[1],
        incoming: part[2] != 0,
        state: part[3],
        cancelled: part[4] != 0,
        address: part[5],
        length: part[6],
        setup: part[7],
        place: part[8],
        count: part[9],
        given: part[10],
        recorded: part[11],
    }
}

// The table stays a slice, as the public calls take any: tried as an array in `cancel_no` and `reclaim_no`, whose refusals `search` then no longer proves.
pub fn record_at(records: &[u64], r: usize) -> Record
    requires { (length records.now ≡ records_size) × (r < record_count) }
    ensures { result ≡ record_at records.now r }
{
    let start = RECORD_WORDS * r;
    record_of(&records[start..start + RECORD_WORDS])
}

// The words of a record, in order.
impl From<Record> for [u64; RECORD_WORDS] {
    ghost from_gives = { λ v words. words ≡ record_list v };

    fn from(v: Record) -> [u64; RECORD_WORDS] {
        [
            v.id,
            v.kind,
            u64::from(v.incoming),
            v.state,
            u64::from(v.cancelled),
            v.address,
            v.length,
            v.setup,
            v.place,
            v.count,
            v.given,
            v.recorded,
        ]
    }
}

// A record's words, all of them anew.
pub fn put_record(records: &mut [u64], r: usize, v: Record)
    requires { (length records.old ≡ records_size) × (r < record_count) }
    ensures { records.new ≡ put record_words records.old r (record_list v) }
{
    let start = RECORD_WORDS * r;
    let words = <[u64; RECORD_WORDS]>::from(v);
    records[start..start + RECORD_WORDS].copy_from_slice(&words);
}

// One word of a record.
#[tactic(auto, unfolding(crate::specs::Records::set_word))]
pub fn set_word(records: &mut [u64], r: usize, word: usize, value: u64)
    requires { (length records.old ≡ records_size) × (r < record_count) × (word < record_words) }
    ensures { records.new ≡ set_word records.old r word value }
{
    let at = RECORD_WORDS * r + word;
    records[at] = value;
}
