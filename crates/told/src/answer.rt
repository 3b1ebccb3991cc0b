// An answer as a number and words.
ghost use Rattle.std.specs.Prelude.{◌≡◌, ◌<◌, [], length};
ghost use Rattle.dock.specs.Refusals.{number};
ghost use Rattle.dock.specs.Numbers.{outcome_number, stored_number, submitted_number, taken_number, resetting_number, command_number, pointed_number};
ghost use Rattle.told.specs.Answer.{answer_words, told_of, spoken, reclaimed_told};

use dock::{Reclaimed, Refusal, ResetCommands, Stored, Submitted};
use ring::Pointer;
use trb::Words;

// The words of an answer: how many values it has, and eight for them.
pub const ANSWER_WORDS: usize = 9;

// An answer: its number, and its words: how many values go with it, the values, and 0 behind the last.
#[derive(Clone, Copy)]
pub struct Told {
    pub number: u32,
    pub words: [u64; ANSWER_WORDS],
}

// An answer of a number and values.
#[tactic(auto, using(crate::proofs::AnswerLaws::laid_out))]
fn numbered(number: u32, values: &[u64]) -> Told
    requires { length values.now < answer_words }
    ensures { result ≡ told_of (number, values.now) }
{
    let mut words = [0; ANSWER_WORDS];
    words[0] = values.len() as u64;
    words[1..=values.len()].copy_from_slice(values);
    Told { number, words }
}

// A refusal has its number, and no values.
fn refused(refusal: Refusal) -> Told
    ensures { result ≡ told_of (number refusal, []) }
{
    numbered(refusal.number(), &[])
}

// The number of an answer that has no values.
pub fn outcome(a: Result<(), Refusal>) -> u32
    ensures { result ≡ (outcome_number a).0 }
{
    match a {
        Ok(()) => 0,
        Err(refusal) => refusal.number(),
    }
}

pub fn stored(a: Result<Stored, Refusal>) -> Told
    ensures { result ≡ told_of (stored_number a) }
{
    match a {
        Ok(Stored::Slot(slot)) => numbered(0, &[slot as u64]),
        Ok(Stored::Last { slot, id, bell }) => numbered(0, &[slot as u64, id, u64::from(bell)]),
        Err(refusal) => refused(refusal),
    }
}

pub fn submitted(a: Result<Submitted, Refusal>) -> Told
    ensures { result ≡ told_of (submitted_number a) }
{
    match a {
        Ok(Submitted { id, bell }) => numbered(0, &[id, u64::from(bell)]),
        Err(refusal) => refused(refusal),
    }
}

pub fn taken(a: Result<usize, Refusal>) -> Told
    ensures { result ≡ told_of (taken_number a) }
{
    match a {
        Ok(slot) => numbered(0, &[slot as u64]),
        Err(refusal) => refused(refusal),
    }
}

// A completion has two values more than the paper's: its record, and how many packets it has there.
pub fn reclaimed(a: Result<Reclaimed, Refusal>) -> Told
    ensures { result ≡ told_of (reclaimed_told a) }
{
    match a {
        Ok(Reclaimed::Done(c)) => numbered(
            0,
            &[
                c.id,
                c.length,
                u64::from(c.yes),
                c.number as u64,
                c.packets as u64,
            ],
        ),
        Ok(Reclaimed::Cancelled) => numbered(7, &[]),
        Ok(Reclaimed::Failed(code)) => numbered(8, &[u64::from(code)]),
        Ok(Reclaimed::Mismatch) => numbered(9, &[]),
        Ok(Reclaimed::Nothing) => numbered(10, &[]),
        Err(refusal) => refused(refusal),
    }
}

// Nothing to do, or the words of two commands.
pub fn resetting(a: Result<Option<ResetCommands>, Refusal>) -> Told
    ensures { result ≡ told_of (resetting_number a) }
{
    match a {
        Ok(None) => numbered(0, &[]),
        Ok(Some(ResetCommands { reset, dequeue })) => numbered(
            0,
            &[
                u64::from(reset.w0),
                u64::from(reset.w1),
                u64::from(reset.w2),
                u64::from(reset.w3),
                u64::from(dequeue.w0),
                u64::from(dequeue.w1),
                u64::from(dequeue.w2),
                u64::from(dequeue.w3),
            ],
        ),
        Err(refusal) => refused(refusal),
    }
}

pub fn command(a: Result<Words, Refusal>) -> Told
    ensures { result ≡ told_of (command_number a) }
{
    match a {
        Ok(Words { w0, w1, w2, w3 }) => numbered(
            0,
            &[u64::from(w0), u64::from(w1), u64::from(w2), u64::from(w3)],
        ),
        Err(refusal) => refused(refusal),
    }
}

pub fn pointed(a: Result<Pointer, Refusal>) -> Told
    ensures { result ≡ told_of (pointed_number a) }
{
    match a {
        Ok(p) => numbered(0, &[p.address, u64::from(p.cycle)]),
        Err(refusal) => refused(refusal),
    }
}

// The answer's words are written, and its number comes back.
#[tactic(auto, unfolding(crate::specs::Answer::spoken))]
pub fn tell(words: &mut [u64; ANSWER_WORDS], t: Told) -> u32
    ensures { (result, words.new) ≡ spoken t }
{
    words.copy_from_slice(&t.words);
    t.number
}
