// The controller as document 01 has it, on the ring's words: "at its slot, other cycle bit than its own: nothing happens. Link: to slot 0, toggle.
// Else consume, move one on."
//
// Its rule is proved to be the standard's consumer rule (`trb`, specs/Cycle) wherever the links lead to slot 0 and toggle, as the ring's own does.
#![tactic(auto)]

ghost use Rattle.std.specs.Prelude.{◌≡◌, ◌+◌, ◌*◌, ◌≤◌, ◌<◌, length, get_or};
ghost use Rattle.trb.specs.Layouts.{words_at};
ghost use Rattle.controller.specs.Rule.{origin, does, step_at, step};

use trb::Words;

// Where the controller stands: its slot, and its own cycle bit.
#[derive(Clone, Copy)]
pub struct Consumer {
    pub slot: usize,
    pub state: bool,
}

// What a step did: nothing; it went by a link; or it consumed the TRB of its slot, whose words these are.
#[derive(Clone, Copy)]
pub enum Step {
    Nothing,
    Linked,
    Took(Words),
}

// A step, and where the controller stands after it.
#[derive(Clone, Copy)]
pub struct Stepped {
    pub step: Step,
    pub after: Consumer,
}

// The word at an index, and 0 past the end.
fn word_at(ring: &[u32], i: usize) -> u32
    ensures { result ≡ get_or ring.now i 0 }
{
    ring.get(i).copied().unwrap_or(0)
}

// The words of a slot; a slot past the ring's end has zeros.
#[tactic(auto, unfolding(trb::specs::Layouts::words_at))]
pub fn slot_words(ring: &[u32], slot: usize) -> Words
    ensures { result ≡ words_at ring.now slot }
{
    if ring.len() / 4 < slot {
        return Words {
            w0: 0,
            w1: 0,
            w2: 0,
            w3: 0,
        };
    }
    let first = 4 * slot;
    Words {
        w0: word_at(ring, first),
        w1: word_at(ring, first + 1),
        w2: word_at(ring, first + 2),
        w3: word_at(ring, first + 3),
    }
}

// Where the controller starts: slot 0, with cycle 1.
pub fn outset() -> Consumer
    ensures { result ≡ origin }
{
    Consumer {
        slot: 0,
        state: true,
    }
}

// What the controller does with the words at its slot: they are its own where their cycle bit is.
#[tactic(auto, unfolding(crate::specs::Rule::does, trb::specs::Cycle::owned, trb::specs::Cycle::cycle_of, trb::specs::Cycle::type_of))]
fn does(w: Words, c: Consumer) -> Step
    ensures { result ≡ does w c }
{
    if (w.w3 % 2 == 1) != c.state {
        Step::Nothing
    } else if w.w3 / 1024 % 64 == 6 {
        Step::Linked
    } else {
        Step::Took(w)
    }
}

// One step, at a slot with these words.
fn step_at(w: Words, c: Consumer) -> Stepped
    requires { c.slot < 18446744073709551615 }
    ensures { result ≡ step_at w c }
{
    let step = does(w, c);
    let after = match step {
        Step::Nothing => c,
        Step::Linked => Consumer {
            slot: 0,
            state: !c.state,
        },
        Step::Took(_) => Consumer {
            slot: c.slot + 1,
            ..c
        },
    };
    Stepped { step, after }
}

// One step of the controller at a slot of the ring.
#[tactic(auto, unfolding(crate::specs::Rule::step))]
pub fn take_step(ring: &[u32], c: Consumer) -> Stepped
    requires { 4 * c.slot + 4 ≤ length ring.now }
    ensures { result ≡ step ring.now c }
{
    step_at(slot_words(ring, c.slot), c)
}
