// The end of a call: its answer is told, and the endpoint's words are saved where the answer changes the endpoint.
ghost use Rattle.std.specs.Prelude.{◌≡◌};
ghost use Rattle.dock.specs.Refusals.{number};
ghost use Rattle.saved.specs.Settle.{numbered, told, unmade};

use crate::state::keep;
use dock::{After, Endpoint, Identity, Refusal, Shape};
use loaded::STATE_WORDS;
use told::answer::{ANSWER_WORDS, Told, outcome, tell};

// Of a call that tells its number only.
#[tactic(auto, unfolding(crate::specs::Settle::numbered))]
pub fn settle(state: &mut [u64; STATE_WORDS], c: After<()>) -> u32
    ensures { (result, state.new) ≡ numbered state.old c }
{
    let number = outcome(c.answer);
    keep(state, number, c.endpoint);
    number
}

// Of a call that has values to tell.
#[tactic(auto, unfolding(crate::specs::Settle::told, told::specs::Answer::spoken))]
pub fn settle_told(
    state: &mut [u64; STATE_WORDS],
    answer: &mut [u64; ANSWER_WORDS],
    t: Told,
    e: Endpoint,
) -> u32
    ensures { (result, state.new, answer.new) ≡ told state.old t e }
{
    keep(state, t.number, e);
    tell(answer, t)
}

// Of a making that is lent a wrong number of words for the endpoint: "Making knows only 13, then 1."
#[tactic(auto, unfolding(crate::specs::Settle::unmade))]
pub fn unmade(shape: Shape, who: Identity) -> Refusal
    ensures { number result ≡ unmade shape who }
{
    if limits::limits_hold(shape, who) {
        Refusal::Unfit
    } else {
        Refusal::OutsideLimits
    }
}
