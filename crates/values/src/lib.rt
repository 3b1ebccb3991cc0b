// The values of a line as what a call takes: numbers of their types, a request, the lengths of its packets, an event's words; and what a line is where
// no ring is made.
#![tactic(auto)]

ghost use Rattle.std.specs.Prelude.{◌≡◌, ◌%◌, ◌<◌, length};
ghost use Rattle.values.specs.Values.{value, byte, half, word, shape_of, identity_of, what_of, address_at, request_of, lengths_of, event_of, is_ring, opening_of, is_bad};

use dock::{Endpoint, Identity, Request, Shape, What};
use lines::{Line, Reading};
use trb::Words;
use words::Word;

// How the session goes on: with the next line; with no ring; or not at all, since the line was bad.
#[derive(Clone, Copy)]
pub enum Next {
    On,
    New,
    Bad,
}

// What a line leaves: the endpoint, and how the session goes on.
#[derive(Clone, Copy)]
pub struct Turn {
    pub e: Endpoint,
    pub next: Next,
}

// What a line is where no ring is made.
#[derive(Clone, Copy)]
pub enum Opening {
    Bad,
    TooLarge,
    Ring,
}

// Value i of a line; what is not there is 0.
pub fn value(values: &[u64], i: usize) -> u64
    ensures { result ≡ value values.now i }
{
    values.get(i).copied().unwrap_or(0)
}

// A value as a smaller number: the line's reader has seen to it that it fits. Three functions, since no conversion of the library cuts.
pub fn byte(v: u64) -> u8
    ensures { result ≡ byte v }
{
    (v % 0x100) as u8
}

pub fn half(v: u64) -> u16
    ensures { result ≡ half v }
{
    (v % 0x1_0000) as u16
}

pub fn word(v: u64) -> u32
    ensures { result ≡ word v }
{
    (v % 0x1_0000_0000) as u32
}

// A `ring` line has slots, base, mask, slot id and dci: the ring's numbers,
#[tactic(auto, unfolding(crate::specs::Values::shape_of))]
pub fn shape_of(values: &[u64]) -> Shape
    ensures { result ≡ shape_of values.now }
{
    Shape {
        slots: value(values, 0) as usize,
        base: value(values, 1),
    }
}

// and who the endpoint is.
#[tactic(auto, unfolding(crate::specs::Values::identity_of))]
pub fn identity_of(values: &[u64]) -> Identity
    ensures { result ≡ identity_of values.now }
{
    Identity {
        slot: byte(value(values, 3)),
        dci: byte(value(values, 4)),
        mask: value(values, 2),
    }
}

// What a word and its values ask for.
#[tactic(auto, unfolding(crate::specs::Values::what_of))]
fn what_of(name: Word, values: &[u64]) -> What
    ensures { result ≡ what_of name values.now }
{
    let a = value(values, 0);
    match name {
        Word::Control => What::Control {
            request_type: byte(a),
            request: byte(value(values, 1)),
            value: half(value(values, 2)),
            index: half(value(values, 3)),
        },
        Word::Iso => What::Isoch { incoming: a == 1 },
        Word::Interrupt => What::Interrupt { incoming: a == 1 },
        _ => What::Bulk { incoming: a == 1 },
    }
}

// Where the address stands; the length is behind it.
#[tactic(auto, unfolding(crate::specs::Values::address_at))]
fn address_at(name: Word) -> usize
    ensures { (result ≡ address_at name) × (result < 5) }
{
    match name {
        Word::Control => 4,
        _ => 1,
    }
}

// The request that a word and its values make.
#[tactic(auto, unfolding(crate::specs::Values::request_of))]
pub fn request_of(name: Word, values: &[u64]) -> Request
    ensures { result ≡ request_of name values.now }
{
    let at = address_at(name);
    Request {
        what: what_of(name, values),
        address: value(values, at),
        length: value(values, at + 1),
    }
}

// The lengths behind an `iso` line's first three values.
#[tactic(auto, unfolding(crate::specs::Values::lengths_of))]
pub fn lengths_of(name: Word, values: &[u64], count: usize) -> &[u64]
    ensures { result.now ≡ lengths_of name values.now count }
{
    match name {
        Word::Iso => values.get(3..count).unwrap_or(&[]),
        _ => &[],
    }
}

// The four words of an event.
#[tactic(auto, unfolding(crate::specs::Values::event_of))]
pub fn event_of(values: &[u64]) -> Words
    ensures { result ≡ event_of values.now }
{
    Words {
        w0: word(value(values, 0)),
        w1: word(value(values, 1)),
        w2: word(value(values, 2)),
        w3: word(value(values, 3)),
    }
}

// A line that makes a ring.
#[tactic(auto, unfolding(crate::specs::Values::is_ring))]
fn is_ring(line: Line) -> bool
    ensures { result ≡ is_ring line }
{
    matches!(
        line,
        Line {
            before: None,
            word: Word::Ring,
            ..
        }
    )
}

// A line with no ring made: it makes one, of at most so many slots, or it is bad.
#[tactic(auto, unfolding(crate::specs::Values::opening_of))]
pub fn opening_of(r: Reading, values: &[u64], most: u64) -> Opening
    ensures { result ≡ opening_of r values.now most }
{
    match r.line() {
        Some(line) if is_ring(line) => {
            if most < value(values, 0) {
                return Opening::TooLarge;
            }
            Opening::Ring
        }
        _ => Opening::Bad,
    }
}

// A line with a ring made is bad where it cannot be read, or is another `ring`.
#[tactic(auto, unfolding(crate::specs::Values::is_bad))]
pub fn is_bad(r: Reading) -> bool
    ensures { result ≡ is_bad r }
{
    match r.line() {
        Some(line) => is_ring(line),
        None => true,
    }
}
