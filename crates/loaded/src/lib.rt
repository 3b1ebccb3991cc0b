// An endpoint from its words, of 64 bits, one a field. Words are an endpoint's where each fits its field (`is_state`); a flag is set by any word but 0.
// specs/State.antt has the words, also as `saved` writes them.
//
// The parts stand one behind the other, each from a word on: a part with more words moves those behind it, and nothing else.
// Each is read field by field: the words are what a driver in C lends and saves, and the order of the fields is theirs.
#![tactic(auto)]

ghost use Rattle.std.specs.Prelude.{◌≡◌, Ok, Err};
ghost use Rattle.dock.specs.declared.Refusal.TheVariants.{Unfit};
ghost use Rattle.base.specs.First.{pick};
ghost use Rattle.loaded.specs.State.{identity_fits, periodic_fits, is_state, Fitting, load, parsed, position_at, shape_at, identity_at, periodic_at, account_at, flags_at, work_at};

use dock::{Account, Endpoint, Flags, Identity, Periodic, Refusal, Shape, Work};
use mask::Occupancy;
use ring::Position;

// The word from which each part stands.
pub const POSITION: usize = 0;

pub const SHAPE: usize = POSITION + 2;

pub const IDENTITY: usize = SHAPE + 2;

pub const PERIODIC: usize = IDENTITY + 3;

pub const ACCOUNT: usize = PERIODIC + 4;

pub const FLAGS: usize = ACCOUNT + 3;

pub const WORK: usize = FLAGS + 2;

// The words of an endpoint.
pub const STATE_WORDS: usize = WORK + 6;

fn position(words: &[u64; STATE_WORDS]) -> Position
    ensures { result ≡ position_at words.now }
{
    Position {
        place: words[POSITION] as usize,
        cycle: words[POSITION + 1] != 0,
    }
}

fn shape(words: &[u64; STATE_WORDS]) -> Shape
    ensures { result ≡ shape_at words.now }
{
    Shape {
        slots: words[SHAPE] as usize,
        base: words[SHAPE + 1],
    }
}

// Slot id and dci fit where they have one byte each.
fn identity(words: &[u64; STATE_WORDS]) -> Result<Identity, Refusal>
    ensures { result ≡ pick (identity_fits words.now) (Ok (identity_at words.now)) (Err Unfit) }
{
    Ok(Identity {
        slot: u8::try_from(words[IDENTITY]).or(Err(Refusal::Unfit))?,
        dci: u8::try_from(words[IDENTITY + 1]).or(Err(Refusal::Unfit))?,
        mask: words[IDENTITY + 2],
    })
}

// Max packet size and next frame fit where they have two bytes, burst and interval where they have one.
fn periodic(words: &[u64; STATE_WORDS]) -> Result<Periodic, Refusal>
    ensures { result ≡ pick (periodic_fits words.now) (Ok (periodic_at words.now)) (Err Unfit) }
{
    Ok(Periodic {
        packet: u16::try_from(words[PERIODIC]).or(Err(Refusal::Unfit))?,
        burst: u8::try_from(words[PERIODIC + 1]).or(Err(Refusal::Unfit))?,
        interval: u8::try_from(words[PERIODIC + 2]).or(Err(Refusal::Unfit))?,
        frame: u16::try_from(words[PERIODIC + 3]).or(Err(Refusal::Unfit))?,
    })
}

fn account(words: &[u64; STATE_WORDS]) -> Account
    ensures { result ≡ account_at words.now }
{
    Account {
        next: words[ACCOUNT],
        occupancy: Occupancy {
            bits: words[ACCOUNT + 1],
        },
        outstanding: words[ACCOUNT + 2],
    }
}

fn flags(words: &[u64; STATE_WORDS]) -> Flags
    ensures { result ≡ flags_at words.now }
{
    Flags {
        halted: words[FLAGS] != 0,
        reset: words[FLAGS + 1] != 0,
    }
}

fn work(words: &[u64; STATE_WORDS]) -> Work
    ensures { result ≡ work_at words.now }
{
    Work {
        busy: words[WORK] != 0,
        number: words[WORK + 1] as usize,
        stored: words[WORK + 2] as usize,
        address: words[WORK + 3],
        place: words[WORK + 4] as usize,
        cycle: words[WORK + 5] != 0,
    }
}

// The endpoint that the words say, where they are an endpoint's: as many as it has, and each fits its field.
// Inlined, since each exported call begins with it: called, it writes and reads the endpoint once more in memory, some 20 ns.
#[inline(always)]
#[tactic(auto, unfolding(crate::specs::State::is_state, crate::specs::State::load, crate::specs::State::parsed))]
pub fn parse(words: &[u64]) -> Result<Endpoint, Refusal>
    ensures { result ≡ parsed words.now }
{
    let words = words.as_array().ok_or(Refusal::Unfit)?;
    Ok(Endpoint {
        at: position(words),
        shape: shape(words),
        who: identity(words)?,
        periodic: periodic(words)?,
        account: account(words),
        flags: flags(words),
        work: work(words),
    })
}

// The endpoint that the words say. Words that are none of an endpoint are the caller's to refuse.
#[tactic(auto, using(crate::proofs::SavedLaws::fitting_parsed))]
pub fn load(words: &[u64]) -> Endpoint
    requires { Fitting words.now }
    ensures { result ≡ load words.now }
{
    parse(words).unwrap()
}

// Are they the words of an endpoint: as many as it has, and each fits its field?
#[tactic(auto, unfolding(crate::specs::State::is_state))]
pub fn is_state(words: &[u64]) -> bool
    ensures { result ≡ is_state words.now }
{
    words.len() == STATE_WORDS
        && u8::try_from(words[IDENTITY]).is_ok()
        && u8::try_from(words[IDENTITY + 1]).is_ok()
        && u16::try_from(words[PERIODIC]).is_ok()
        && u8::try_from(words[PERIODIC + 1]).is_ok()
        && u8::try_from(words[PERIODIC + 2]).is_ok()
        && u16::try_from(words[PERIODIC + 3]).is_ok()
}
