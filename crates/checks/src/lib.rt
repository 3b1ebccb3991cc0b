// The tests that the calls of the dock share: the endpoint and its records fit (row 1 of "When the dock says no"), and no stores are under way.
//
// Every function here takes any input, but those that go with `strays`: it asks that the records have their size, which `fits_with` tests.
#![tactic(auto)]

ghost use Rattle.std.specs.Prelude.{◌≡◌, not, ◌&&◌, ◌≤◌, ◌<◌, leb, length};
ghost use Rattle.sizes.specs.Sizes.{records_size, packet_count};
ghost use Rattle.dock.specs.Trbs.{trb_count, deferred, chained};
ghost use Rattle.dock.specs.RowOne.{fits, next_of, is_none, first_fits, strays, fits_with};
ghost use Rattle.dock.specs.Refusals.{verdict};
ghost use Rattle.dock.specs.Configure.{plain_no};
ghost use Rattle.dock.specs.Retire.{record_no};
ghost use Rattle.checks.specs.Step.{named};

use dock::{Endpoint, Refusal, refuse};
use records::{Kind, Record, State};

// "L, base, dci or slot id outside the above, place above L-2 .., next id 0": none of it. Document 02: "Answer 1 reads the same rule."
#[tactic(auto, unfolding(dock::specs::RowOne::fits, dock::specs::RowOne::place_fits))]
pub fn fits(e: Endpoint) -> bool
    ensures { result ≡ fits e }
{
    limits::limits_hold(e.shape, e.who)
        && limits::stands(e.shape.slots, e.at.place, e.work.busy, e.work.stored)
        && e.account.next != 0
}

// How many TRBs a record's request has.
#[tactic(auto, unfolding(dock::specs::Trbs::trb_count))]
pub fn trb_count(v: Record) -> u64
    ensures { (result ≡ trb_count v) × (result ≤ packet_count) }
{
    match Kind::from_word(v.kind) {
        Some(Kind::Control) if v.length == 0 => 2,
        Some(Kind::Control) => 3,
        Some(Kind::Isoch) => v.count.min(sizes::PACKET_COUNT as u64),
        Some(Kind::Bulk | Kind::Interrupt) => 1,
        None => 0,
    }
}

// Whether a TD stores its first TRB last.
// "A control TD stores its setup with the opposite cycle, the rest as usual, then the setup again with the right one."
#[tactic(auto, unfolding(dock::specs::Trbs::deferred))]
pub fn is_deferred(v: Record) -> bool
    ensures { result ≡ deferred v }
{
    v.has_kind(Kind::Control)
}

// Whether the link is chained, should a TD's stores come to L-1: no TRB of a request is chained to the next.
#[tactic(auto, unfolding(dock::specs::Trbs::chained))]
pub fn is_chained(e: Endpoint, v: Record) -> bool
    ensures { result ≡ chained e v }
{
    false
}

// What the next store of a submission is, where one is left.
#[derive(Clone, Copy)]
pub enum Next {
    Link,
    Trb,
    First,
}

#[tactic(auto, unfolding(dock::specs::RowOne::next_of))]
pub fn next_of(e: Endpoint, v: Record) -> Option<Next>
    requires { 0 < e.shape.slots }
    ensures { named result ≡ next_of e v }
{
    if e.at.place == e.shape.slots - 1 {
        return Some(Next::Link);
    }
    let count = trb_count(v);
    let stored = e.work.stored as u64;
    if stored < count {
        return Some(Next::Trb);
    }
    if is_deferred(v) && stored == count {
        return Some(Next::First);
    }
    None
}

// The stores of a record's request are all made, or a store number is past them.
fn is_past(e: Endpoint, v: Record) -> bool
    requires { 0 < e.shape.slots }
    ensures { result ≡ not (leb e.work.stored (trb_count v) && not (is_none (next_of e v))) }
{
    trb_count(v) < e.work.stored as u64 || next_of(e, v).is_none()
}

// The place of a deferred TD's first TRB is at most L-2.
fn first_fits(e: Endpoint, v: Record) -> bool
    requires { 0 < e.shape.slots }
    ensures { result ≡ first_fits e v }
{
    !is_deferred(v) || e.work.place < e.shape.slots - 1
}

// "a store number past its request's stores", or a first place that does not fit.
// Step by step: the record is read only where the tests before it showed that its number is one of the table's.
#[tactic(auto, unfolding(dock::specs::RowOne::strays))]
pub fn strays(e: Endpoint, records: &[u64]) -> bool
    requires { (length records.now ≡ records_size) × (0 < e.shape.slots) }
    ensures { result ≡ strays e records.now }
{
    if !e.work.busy {
        return false;
    }
    let number = e.work.number;
    if sizes::RECORD_COUNT <= number || !e.account.occupancy.is_held(number) {
        return true;
    }
    let v = records::record_at(records, number);
    !v.has_state(State::InFlight) || is_past(e, v) || !first_fits(e, v)
}

// Row 1 of a call that is lent the records.
#[tactic(auto, unfolding(dock::specs::RowOne::fits_with))]
pub fn fits_with(e: Endpoint, records: &[u64]) -> bool
    ensures { result ≡ fits_with e records.now }
{
    fits(e) && records.len() == sizes::RECORDS_SIZE && !strays(e, records)
}

// The refusals of a call that is lent no records: 1, then 12.
#[tactic(auto, unfolding(dock::specs::Configure::plain_no, dock::specs::Configure::plain_tests))]
pub fn plain_no(e: Endpoint) -> Result<(), Refusal>
    ensures { result ≡ verdict (plain_no e) }
{
    refuse(!fits(e), Refusal::Unfit)?;
    refuse(e.work.busy, Refusal::Busy)
}

// The refusals of a call that is lent the records: 1, then 12.
#[tactic(auto, unfolding(dock::specs::Retire::record_no, dock::specs::Retire::record_tests))]
pub fn record_no(e: Endpoint, records: &[u64]) -> Result<(), Refusal>
    ensures { result ≡ verdict (record_no e records.now) }
{
    refuse(!fits_with(e, records), Refusal::Unfit)?;
    refuse(e.work.busy, Refusal::Busy)
}
