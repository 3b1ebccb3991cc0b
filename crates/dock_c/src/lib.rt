// The calls of the dock for programs in C, Rust or any language that calls C: numbers and slices only.
//
// A slice crosses as a pointer to its first element and its length. An endpoint is `STATE_WORDS` words that the caller keeps and lends to each call, a
// request is eight words, and an answer is document 01's number, which is returned, and, for the calls that have values to tell, nine words
// (crates `loaded` and `told` say which). Nothing is asked of the numbers: words of a wrong length, words that are too wide for their fields and a
// request of no kind are answered 1, and any other words are an endpoint or a request. Making reads no word of the endpoint, and answers 13 before 1.
// A call that is refused leaves the endpoint's words as they are, even where a save would change them.
//
// Each function loads the endpoint, makes the call of its name, saves the endpoint and tells the answer; specs/Exported.antt says so, once each.
#![tactic(auto)]

ghost use Rattle.std.specs.Prelude.{◌≡◌};
ghost use Rattle.dock_c.specs.Exported.{shape_given, identity_given, made, configured, started, stored_one, submitted, handed_over, reclaimed, cancelled, retired, reset_begun, reset_ended, stopped, resumed, pointed};

use dock::{Identity, Refusal, Shape};
use loaded::parse;
use saved::settle::{settle, settle_told, unmade};
use told::answer::tell;
use told::{answer, request};
use trb::Words;

// ---- building

#[unsafe(no_mangle)]
#[tactic(auto, unfolding(crate::specs::Exported::made))]
pub extern "C" fn thn_make(
    state: &mut [u64],
    ring: &mut [u32],
    finished: &mut [u32],
    records: &mut [u64],
    packets: &mut [u64],
    slots: usize,
    base: u64,
    mask: u64,
    slot: u8,
    dci: u8,
) -> u32
    ensures { (result, state.new, ring.new, finished.new, records.new, packets.new) ≡ made state.old ring.old finished.old records.old packets.old (shape_given slots base) (identity_given mask slot dci) }
{
    let shape = Shape { slots, base };
    let who = Identity { slot, dci, mask };
    let Some(state) = state.as_mut_array() else {
        return unmade(shape, who).number();
    };
    settle(
        state,
        making::make::make(ring, finished, records, packets, shape, who),
    )
}

#[unsafe(no_mangle)]
#[tactic(auto, unfolding(crate::specs::Exported::configured, loaded::specs::State::parsed, loaded::specs::State::is_state))]
pub extern "C" fn thn_configure(state: &mut [u64], packet: u16, burst: u8, interval: u8) -> u32
    ensures { (result, state.new) ≡ configured state.old packet burst interval }
{
    let Ok(endpoint) = parse(state) else {
        return Refusal::Unfit.number();
    };
    let Some(state) = state.as_mut_array() else {
        return Refusal::Unfit.number();
    };
    settle(
        state,
        making::configure::configure_periodic(endpoint, packet, burst, interval),
    )
}

#[unsafe(no_mangle)]
#[tactic(auto, unfolding(crate::specs::Exported::started, loaded::specs::State::parsed, loaded::specs::State::is_state, told::specs::Request::parsed))]
pub extern "C" fn thn_start(
    state: &mut [u64],
    records: &mut [u64],
    packets: &mut [u64],
    request: &[u64],
    lengths: &[u64],
) -> u32
    ensures { (result, state.new, records.new, packets.new) ≡ started state.old records.old packets.old request.now lengths.now }
{
    let Ok(endpoint) = parse(state) else {
        return Refusal::Unfit.number();
    };
    let Ok(request) = request::parse(request) else {
        return Refusal::Unfit.number();
    };
    let Some(state) = state.as_mut_array() else {
        return Refusal::Unfit.number();
    };
    settle(
        state,
        building::start::start_request(endpoint, records, packets, request, lengths),
    )
}

#[unsafe(no_mangle)]
#[tactic(auto, unfolding(crate::specs::Exported::stored_one, loaded::specs::State::parsed, loaded::specs::State::is_state))]
pub extern "C" fn thn_store(
    state: &mut [u64],
    answer: &mut [u64],
    ring: &mut [u32],
    finished: &mut [u32],
    records: &[u64],
    packets: &[u64],
) -> u32
    ensures { (result, state.new, answer.new, ring.new, finished.new) ≡ stored_one state.old answer.old ring.old finished.old records.now packets.now }
{
    let Ok(endpoint) = parse(state) else {
        return Refusal::Unfit.number();
    };
    let Some(state) = state.as_mut_array() else {
        return Refusal::Unfit.number();
    };
    let Some(answer) = answer.as_mut_array() else {
        return Refusal::Unfit.number();
    };
    let s = building::store::next_store(endpoint, ring, finished, records, packets);
    settle_told(state, answer, answer::stored(s.answer), s.endpoint)
}

#[unsafe(no_mangle)]
#[tactic(auto, unfolding(crate::specs::Exported::submitted, loaded::specs::State::parsed, loaded::specs::State::is_state, told::specs::Request::parsed))]
pub extern "C" fn thn_submit(
    state: &mut [u64],
    answer: &mut [u64],
    ring: &mut [u32],
    finished: &mut [u32],
    records: &mut [u64],
    packets: &mut [u64],
    request: &[u64],
    lengths: &[u64],
) -> u32
    ensures { (result, state.new, answer.new, ring.new, finished.new, records.new, packets.new) ≡ submitted state.old answer.old ring.old finished.old records.old packets.old request.now lengths.now }
{
    let Ok(endpoint) = parse(state) else {
        return Refusal::Unfit.number();
    };
    let Ok(request) = request::parse(request) else {
        return Refusal::Unfit.number();
    };
    let Some(state) = state.as_mut_array() else {
        return Refusal::Unfit.number();
    };
    let Some(answer) = answer.as_mut_array() else {
        return Refusal::Unfit.number();
    };
    let s = building::submit::submit_request(
        endpoint, ring, finished, records, packets, request, lengths,
    );
    settle_told(state, answer, answer::submitted(s.answer), s.endpoint)
}

// ---- completion

#[unsafe(no_mangle)]
#[tactic(auto, unfolding(crate::specs::Exported::handed_over, loaded::specs::State::parsed, loaded::specs::State::is_state))]
pub extern "C" fn thn_hand_over(
    state: &[u64],
    answer: &mut [u64],
    finished: &mut [u32],
    w0: u32,
    w1: u32,
    w2: u32,
    w3: u32,
) -> u32
    ensures { (result, answer.new, finished.new) ≡ handed_over state.now answer.old finished.old w0 w1 w2 w3 }
{
    let Ok(endpoint) = parse(state) else {
        return Refusal::Unfit.number();
    };
    let Some(answer) = answer.as_mut_array() else {
        return Refusal::Unfit.number();
    };
    let event = Words { w0, w1, w2, w3 };
    let a = completion::hand_over(endpoint, finished, event);
    tell(answer, answer::taken(a))
}

#[unsafe(no_mangle)]
#[tactic(auto, unfolding(crate::specs::Exported::reclaimed, loaded::specs::State::parsed, loaded::specs::State::is_state))]
pub extern "C" fn thn_reclaim(
    state: &mut [u64],
    answer: &mut [u64],
    finished: &[u32],
    records: &mut [u64],
    packets: &mut [u64],
    id: u64,
) -> u32
    ensures { (result, state.new, answer.new, records.new, packets.new) ≡ reclaimed state.old answer.old finished.now records.old packets.old id }
{
    let Ok(endpoint) = parse(state) else {
        return Refusal::Unfit.number();
    };
    let Some(state) = state.as_mut_array() else {
        return Refusal::Unfit.number();
    };
    let Some(answer) = answer.as_mut_array() else {
        return Refusal::Unfit.number();
    };
    let r = reclaiming::reclaim_request(endpoint, finished, records, packets, id);
    settle_told(state, answer, answer::reclaimed(r.answer), r.endpoint)
}

#[unsafe(no_mangle)]
#[tactic(auto, unfolding(crate::specs::Exported::cancelled, loaded::specs::State::parsed, loaded::specs::State::is_state))]
pub extern "C" fn thn_cancel(state: &[u64], records: &mut [u64], id: u64) -> u32
    ensures { (result, records.new) ≡ cancelled state.now records.old id }
{
    let Ok(endpoint) = parse(state) else {
        return Refusal::Unfit.number();
    };
    answer::outcome(completion::cancel_request(endpoint, records, id))
}

// ---- stop and reset

#[unsafe(no_mangle)]
#[tactic(auto, unfolding(crate::specs::Exported::retired, loaded::specs::State::parsed, loaded::specs::State::is_state))]
pub extern "C" fn thn_retire(state: &mut [u64], records: &mut [u64]) -> u32
    ensures { (result, state.new, records.new) ≡ retired state.old records.old }
{
    let Ok(endpoint) = parse(state) else {
        return Refusal::Unfit.number();
    };
    let Some(state) = state.as_mut_array() else {
        return Refusal::Unfit.number();
    };
    settle(state, retiring::retire_all_after_stop(endpoint, records))
}

#[unsafe(no_mangle)]
#[tactic(auto, unfolding(crate::specs::Exported::reset_begun, loaded::specs::State::parsed, loaded::specs::State::is_state))]
pub extern "C" fn thn_begin_reset(state: &mut [u64], answer: &mut [u64], records: &[u64]) -> u32
    ensures { (result, state.new, answer.new) ≡ reset_begun state.old answer.old records.now }
{
    let Ok(endpoint) = parse(state) else {
        return Refusal::Unfit.number();
    };
    let Some(state) = state.as_mut_array() else {
        return Refusal::Unfit.number();
    };
    let Some(answer) = answer.as_mut_array() else {
        return Refusal::Unfit.number();
    };
    let b = resetting::begin_reset(endpoint, records);
    settle_told(state, answer, answer::resetting(b.answer), b.endpoint)
}

// `worked` is not 0 where the commands of the reset worked.
#[unsafe(no_mangle)]
#[tactic(auto, unfolding(crate::specs::Exported::reset_ended, loaded::specs::State::parsed, loaded::specs::State::is_state))]
pub extern "C" fn thn_end_reset(state: &mut [u64], worked: u32) -> u32
    ensures { (result, state.new) ≡ reset_ended state.old worked }
{
    let Ok(endpoint) = parse(state) else {
        return Refusal::Unfit.number();
    };
    let Some(state) = state.as_mut_array() else {
        return Refusal::Unfit.number();
    };
    settle(state, resetting::end_reset(endpoint, worked != 0))
}

#[unsafe(no_mangle)]
#[tactic(auto, unfolding(crate::specs::Exported::stopped, loaded::specs::State::parsed, loaded::specs::State::is_state))]
pub extern "C" fn thn_stop(state: &[u64], answer: &mut [u64]) -> u32
    ensures { (result, answer.new) ≡ stopped state.now answer.old }
{
    let Ok(endpoint) = parse(state) else {
        return Refusal::Unfit.number();
    };
    let Some(answer) = answer.as_mut_array() else {
        return Refusal::Unfit.number();
    };
    tell(answer, answer::command(stopping::stop_words(endpoint)))
}

#[unsafe(no_mangle)]
#[tactic(auto, unfolding(crate::specs::Exported::resumed, loaded::specs::State::parsed, loaded::specs::State::is_state))]
pub extern "C" fn thn_resume(state: &[u64], answer: &mut [u64]) -> u32
    ensures { (result, answer.new) ≡ resumed state.now answer.old }
{
    let Ok(endpoint) = parse(state) else {
        return Refusal::Unfit.number();
    };
    let Some(answer) = answer.as_mut_array() else {
        return Refusal::Unfit.number();
    };
    tell(answer, answer::command(stopping::resume_words(endpoint)))
}

#[unsafe(no_mangle)]
#[tactic(auto, unfolding(crate::specs::Exported::pointed, loaded::specs::State::parsed, loaded::specs::State::is_state))]
pub extern "C" fn thn_pointer(state: &[u64], answer: &mut [u64]) -> u32
    ensures { (result, answer.new) ≡ pointed state.now answer.old }
{
    let Ok(endpoint) = parse(state) else {
        return Refusal::Unfit.number();
    };
    let Some(answer) = answer.as_mut_array() else {
        return Refusal::Unfit.number();
    };
    tell(answer, answer::pointed(stopping::enqueue_pointer(endpoint)))
}
