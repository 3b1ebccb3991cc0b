// The refusals of hand over, cancel and reclaim, in document 01's order: one function a call, over tests that are functions of their own.
#![tactic(auto)]

ghost use Rattle.std.specs.Prelude.{◌≡◌, ◌&&◌, ◌*◌, eqb, length};
ghost use Rattle.sizes.specs.Sizes.{ring_size, records_size, packets_size};
ghost use Rattle.ids.specs.Lookup.{find_in};
ghost use Rattle.dock.specs.RowOne.{fits, fits_with};
ghost use Rattle.dock.specs.Refusals.{verdict};
ghost use Rattle.dock.specs.HandOver.{slot_for, slot_number, foreign, hand_over_no};
ghost use Rattle.dock.specs.Cancel.{not_flying, cancel_no};
ghost use Rattle.dock.specs.Reclaim.{bad_record, reclaim_no};
ghost use Rattle.refusal.specs.Misplaced.{misplaced};

use dock::{Endpoint, Refusal, refuse};
use mask::Occupancy;
use records::{Kind, Record, State};
use sizes::{PACKET_COUNT, PACKETS_SIZE};
use trb::Words;

// ---- an event that is handed over

// The endpoint fits, and the finished table has its size.
fn is_ready(e: Endpoint, finished: usize) -> bool
    ensures { result ≡ (fits e && eqb finished (ring_size e.shape.slots)) }
{
    checks::fits(e) && limits::is_sized(finished, e.shape.slots)
}

// The slot whose TRB an event is for.
#[tactic(auto, unfolding(dock::specs::HandOver::slot_for))]
fn slot_for(e: Endpoint, w: Words) -> Option<usize>
    ensures { result ≡ slot_for e w }
{
    let event = event::event_of(w);
    ring::slot_of(e.shape.base, e.shape.slots, event.address)
}

// "event not type 32, other slot or endpoint id, or address not one of the L slots."
#[tactic(auto, unfolding(dock::specs::HandOver::foreign))]
fn is_foreign(e: Endpoint, w: Words) -> bool
    ensures { result ≡ foreign e w }
{
    let event = event::event_of(w);
    event.form != 32
        || event.slot != e.who.slot as u32
        || event.endpoint != e.who.dci as u32
        || matches!(slot_for(e, w), None)
}

// The number of the event's slot.
pub fn place_for(e: Endpoint, w: Words) -> usize
    ensures { result ≡ slot_number (slot_for e w) }
{
    let slot = slot_for(e, w);
    match slot {
        Some(i) => i,
        None => 0,
    }
}

#[tactic(auto, unfolding(dock::specs::HandOver::hand_over_no, dock::specs::HandOver::hand_over_tests))]
pub fn hand_over_no(e: Endpoint, finished: usize, w: Words) -> Result<(), Refusal>
    ensures { result ≡ verdict (hand_over_no e finished w) }
{
    refuse(!is_ready(e, finished), Refusal::Unfit)?;
    refuse(e.work.busy, Refusal::Busy)?;
    refuse(is_foreign(e, w), Refusal::ForeignEvent)
}

// ---- a cancel

// The id is that of no record in flight.
#[tactic(auto, unfolding(dock::specs::Cancel::not_flying))]
fn is_grounded(records: &[u64], occupancy: Occupancy, id: u64) -> bool
    requires { length records.now ≡ records_size }
    ensures { result ≡ not_flying records.now (find_in records.now occupancy id) }
{
    let found = ids::find_id(records, occupancy, id);
    match found {
        None => true,
        Some(r) => {
            let v = records::record_at(records, r);
            !v.has_state(State::InFlight)
        }
    }
}

#[tactic(auto, unfolding(dock::specs::Cancel::cancel_no, dock::specs::Cancel::cancel_tests))]
pub fn cancel_no(e: Endpoint, records: &[u64], id: u64) -> Result<(), Refusal>
    ensures { result ≡ verdict (cancel_no e records.now id) }
{
    refuse(!checks::fits_with(e, records), Refusal::Unfit)?;
    refuse(e.work.busy, Refusal::Busy)?;
    refuse(
        is_grounded(records, e.account.occupancy, id),
        Refusal::NotInFlight,
    )
}

// ---- a reclaim

// The endpoint and its records fit, and the finished table and the packets have their sizes.
fn is_fitted(e: Endpoint, finished: usize, records: &[u64], packets: usize) -> bool
    ensures { result ≡ (fits_with e records.now && eqb finished (ring_size e.shape.slots) && eqb packets packets_size) }
{
    checks::fits_with(e, records)
        && limits::is_sized(finished, e.shape.slots)
        && packets == PACKETS_SIZE
}

// A record in flight "with a place above L-2 or over 64 packets".
#[tactic(auto, unfolding(crate::specs::Misplaced::misplaced))]
fn is_misplaced(slots: usize, v: Record) -> bool
    ensures { result ≡ misplaced slots v }
{
    v.has_state(State::InFlight)
        && (slots.saturating_sub(1) as u64 <= v.place
            || v.has_kind(Kind::Isoch) && (PACKET_COUNT as u64) < v.count)
}

fn is_bad(e: Endpoint, records: &[u64], id: u64) -> bool
    requires { length records.now ≡ records_size }
    ensures { result ≡ bad_record e records.now (find_in records.now e.account.occupancy id) }
{
    let found = ids::find_id(records, e.account.occupancy, id);
    match found {
        None => false,
        Some(r) => is_misplaced(e.shape.slots, records::record_at(records, r)),
    }
}

#[tactic(auto, unfolding(dock::specs::Reclaim::reclaim_no, dock::specs::Reclaim::reclaim_tests))]
pub fn reclaim_no(
    e: Endpoint,
    finished: usize,
    records: &[u64],
    packets: usize,
    id: u64,
) -> Result<(), Refusal>
    ensures { result ≡ verdict (reclaim_no e finished records.now packets id) }
{
    refuse(!is_fitted(e, finished, records, packets), Refusal::Unfit)?;
    refuse(is_bad(e, records, id), Refusal::Unfit)?;
    refuse(e.work.busy, Refusal::Busy)
}
