// The calls that a line makes, each with what it writes.
#![tactic(auto)]

ghost use Rattle.std.specs.Prelude.{◌≡◌};
ghost use Rattle.dock.specs.Make.{make};
ghost use Rattle.values.specs.Values.{shape_of, identity_of};
ghost use Rattle.calls.specs.Calls.{configured, ended, stopped, resumed, pointed, reset, handed, cancelled, retired, reclaimed, begun};
ghost use Rattle.calls.specs.Calls.{turn, goes_on, stored_one, stores, asked, submitted};
ghost use Rattle.page.specs.Lent.{shown, loan};

use dock::{After, Endpoint, Refusal, Request, Stored};
use page::Page;
use values::{Next, Turn};

// What a store leaves, and whether more are to come.
#[derive(Clone, Copy)]
pub struct StoreTurn {
    pub e: Endpoint,
    pub more: bool,
}

// The session goes on.
fn on(e: Endpoint) -> Turn
    ensures { result ≡ turn e }
{
    Turn { e, next: Next::On }
}

// `ring`: a ring is made.
pub fn made(
    ring: &mut [u32],
    finished: &mut [u32],
    records: &mut [u64],
    packets: &mut [u64],
    values: &[u64],
) -> After<()>
    ensures { (result, ring.new, finished.new, records.new, packets.new) ≡ make ring.old finished.old records.old packets.old (shape_of values.now) (identity_of values.now) }
{
    making::make::make(
        ring,
        finished,
        records,
        packets,
        values::shape_of(values),
        values::identity_of(values),
    )
}

#[tactic(auto, unfolding(crate::specs::Calls::configured))]
pub fn configured(e: Endpoint, values: &[u64], page: &mut Page) -> Turn
    ensures leaves { (result, shown page.new) ≡ configured e values.now (shown page.old) }
    ensures same_bytes { loan page.new ≡ loan page.old }
{
    let packet = values::half(values::value(values, 0));
    let burst = values::byte(values::value(values, 1));
    let interval = values::byte(values::value(values, 2));
    let c = making::configure::configure_periodic(e, packet, burst, interval);
    answers::put_outcome(page, b"set", c.answer);
    on(c.endpoint)
}

// The start of a submission by itself.
#[tactic(auto, unfolding(crate::specs::Calls::begun))]
pub fn begun(
    e: Endpoint,
    records: &mut [u64],
    packets: &mut [u64],
    request: Request,
    lengths: &[u64],
    page: &mut Page,
) -> Turn
    ensures leaves { (result, records.new, packets.new, shown page.new) ≡ begun e records.old packets.old request lengths.now (shown page.old) }
    ensures same_bytes { loan page.new ≡ loan page.old }
{
    let s = building::start::start_request(e, records, packets, request, lengths);
    answers::put_outcome(page, b"begun", s.answer);
    on(s.endpoint)
}

// Are more stores to come?
fn goes_on(answer: Result<Stored, Refusal>) -> bool
    ensures { result ≡ goes_on answer }
{
    matches!(answer, Ok(Stored::Slot(_)))
}

// One store.
#[tactic(auto, unfolding(crate::specs::Calls::stored_one))]
pub fn stored(
    e: Endpoint,
    ring: &mut [u32],
    finished: &mut [u32],
    records: &[u64],
    packets: &[u64],
    page: &mut Page,
) -> StoreTurn
    ensures leaves { (result, ring.new, finished.new, shown page.new) ≡ stored_one e ring.old finished.old records.now packets.now (shown page.old) }
    ensures same_bytes { loan page.new ≡ loan page.old }
{
    let s = building::store::next_store(e, ring, finished, records, packets);
    answers::put_stored(page, ring, s.answer);
    StoreTurn {
        e: s.endpoint,
        more: goes_on(s.answer),
    }
}

// The stores that are left of a submission, in order, at most so many.
#[tactic(auto, unfolding(crate::specs::Calls::stores))]
fn stores(
    most: usize,
    e: Endpoint,
    ring: &mut [u32],
    finished: &mut [u32],
    records: &[u64],
    packets: &[u64],
    page: &mut Page,
) -> Turn
    ensures leaves { (result, ring.new, finished.new, shown page.new) ≡ stores most e ring.old finished.old records.now packets.now (shown page.old) }
    ensures same_bytes { loan page.new ≡ loan page.old }
{
    let mut next = e;
    for _ in 0..most {
        let t = stored(next, ring, finished, records, packets, page);
        next = t.e;
        if !t.more {
            return on(next);
        }
    }
    on(next)
}

// A request: its start, and its stores in order, each written.
#[tactic(auto, unfolding(crate::specs::Calls::asked))]
pub fn asked(
    e: Endpoint,
    ring: &mut [u32],
    finished: &mut [u32],
    records: &mut [u64],
    packets: &mut [u64],
    request: Request,
    lengths: &[u64],
    page: &mut Page,
) -> Turn
    ensures leaves { (result, ring.new, finished.new, records.new, packets.new, shown page.new) ≡ asked e ring.old finished.old records.old packets.old request lengths.now (shown page.old) }
    ensures same_bytes { loan page.new ≡ loan page.old }
{
    let s = building::start::start_request(e, records, packets, request, lengths);
    let answer = s.answer;
    let next = s.endpoint;
    match answer {
        Err(refusal) => {
            phrases::put_no(page, refusal.number());
            on(next)
        }
        Ok(()) => stores(66, next, ring, finished, records, packets, page),
    }
}

// A whole submission in one call.
#[tactic(auto, unfolding(crate::specs::Calls::submitted))]
pub fn submitted(
    e: Endpoint,
    ring: &mut [u32],
    finished: &mut [u32],
    records: &mut [u64],
    packets: &mut [u64],
    request: Request,
    lengths: &[u64],
    page: &mut Page,
) -> Turn
    ensures leaves { (result, ring.new, finished.new, records.new, packets.new, shown page.new) ≡ submitted e ring.old finished.old records.old packets.old request lengths.now (shown page.old) }
    ensures same_bytes { loan page.new ≡ loan page.old }
{
    let s = building::submit::submit_request(e, ring, finished, records, packets, request, lengths);
    answers::put_submitted(page, s.answer);
    on(s.endpoint)
}

#[tactic(auto, unfolding(crate::specs::Calls::handed))]
pub fn handed(e: Endpoint, finished: &mut [u32], values: &[u64], page: &mut Page) -> Turn
    ensures leaves { (result, finished.new, shown page.new) ≡ handed e finished.old values.now (shown page.old) }
    ensures same_bytes { loan page.new ≡ loan page.old }
{
    let event = values::event_of(values);
    let answer = completion::hand_over(e, finished, event);
    answers::put_taken(page, answer);
    on(e)
}

#[tactic(auto, unfolding(crate::specs::Calls::reclaimed))]
pub fn reclaimed(
    e: Endpoint,
    finished: &[u32],
    records: &mut [u64],
    packets: &mut [u64],
    id: u64,
    page: &mut Page,
) -> Turn
    ensures leaves { (result, records.new, packets.new, shown page.new) ≡ reclaimed e finished.now records.old packets.old id (shown page.old) }
    ensures same_bytes { loan page.new ≡ loan page.old }
{
    let r = reclaiming::reclaim_request(e, finished, records, packets, id);
    answers::put_reclaimed(page, packets, r.answer);
    on(r.endpoint)
}

#[tactic(auto, unfolding(crate::specs::Calls::cancelled))]
pub fn cancelled(e: Endpoint, records: &mut [u64], id: u64, page: &mut Page) -> Turn
    ensures leaves { (result, records.new, shown page.new) ≡ cancelled e records.old id (shown page.old) }
    ensures same_bytes { loan page.new ≡ loan page.old }
{
    let answer = completion::cancel_request(e, records, id);
    answers::put_cut(page, id, answer);
    on(e)
}

#[tactic(auto, unfolding(crate::specs::Calls::retired))]
pub fn retired(e: Endpoint, records: &mut [u64], page: &mut Page) -> Turn
    ensures leaves { (result, records.new, shown page.new) ≡ retired e records.old (shown page.old) }
    ensures same_bytes { loan page.new ≡ loan page.old }
{
    let r = retiring::retire_all_after_stop(e, records);
    answers::put_outcome(page, b"retired", r.answer);
    on(r.endpoint)
}

#[tactic(auto, unfolding(crate::specs::Calls::stopped))]
pub fn stopped(e: Endpoint, page: &mut Page) -> Turn
    ensures leaves { (result, shown page.new) ≡ stopped e (shown page.old) }
    ensures same_bytes { loan page.new ≡ loan page.old }
{
    let answer = stopping::stop_words(e);
    answers::put_commanded(page, answer);
    on(e)
}

#[tactic(auto, unfolding(crate::specs::Calls::resumed))]
pub fn resumed(e: Endpoint, page: &mut Page) -> Turn
    ensures leaves { (result, shown page.new) ≡ resumed e (shown page.old) }
    ensures same_bytes { loan page.new ≡ loan page.old }
{
    let answer = stopping::resume_words(e);
    answers::put_commanded(page, answer);
    on(e)
}

#[tactic(auto, unfolding(crate::specs::Calls::pointed))]
pub fn pointed(e: Endpoint, page: &mut Page) -> Turn
    ensures leaves { (result, shown page.new) ≡ pointed e (shown page.old) }
    ensures same_bytes { loan page.new ≡ loan page.old }
{
    let answer = stopping::enqueue_pointer(e);
    answers::put_pointed(page, answer);
    on(e)
}

#[tactic(auto, unfolding(crate::specs::Calls::reset))]
pub fn reset(e: Endpoint, records: &[u64], page: &mut Page) -> Turn
    ensures leaves { (result, shown page.new) ≡ reset e records.now (shown page.old) }
    ensures same_bytes { loan page.new ≡ loan page.old }
{
    let b = resetting::begin_reset(e, records);
    answers::put_resetting(page, b.answer);
    on(b.endpoint)
}

#[tactic(auto, unfolding(crate::specs::Calls::ended))]
pub fn ended(e: Endpoint, worked: bool, page: &mut Page) -> Turn
    ensures leaves { (result, shown page.new) ≡ ended e worked (shown page.old) }
    ensures same_bytes { loan page.new ≡ loan page.old }
{
    let f = resetting::end_reset(e, worked);
    answers::put_outcome(page, b"ended", f.answer);
    on(f.endpoint)
}
