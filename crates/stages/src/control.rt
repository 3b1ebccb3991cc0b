// The reclaim of a control request: setup, data and status are looked at in that order.
ghost use Rattle.std.specs.Prelude.{◌≡◌, ◌+◌, ◌≤◌, ◌<◌, eqb, length};
ghost use Rattle.base.specs.First.{pick};
ghost use Rattle.sizes.specs.Sizes.{records_size};
ghost use Rattle.finished.specs.Finished.{finished_at};
ghost use Rattle.dock.specs.Reclaim.{stage_by, status_by, recorded_by, recorded_length, place_of, status_place, data_seen, reclaim_control};
ghost use Rattle.stages.specs.Parts.{after_setup};
ghost use Rattle.stages.specs.Values.{seen_of};

use completing::{Claim, Flight, unfinished};
use dock::{After, Reclaimed};
use records::{RECORDED, Record};
use trb::Words;
use worth::is_accepted;

// A stage's event: none, an accepted one, or one whose code is refused. A refused one ends the request; else the later stages are looked at.
fn stage_by(f: Option<Words>, claim: Claim) -> Option<After<Reclaimed>>
    ensures { seen_of result ≡ stage_by f claim.endpoint claim.record claim.number }
{
    match f {
        None => None,
        Some(w) => {
            let event = event::event_of(w);
            if is_accepted(event.code) {
                return None;
            }
            Some(claim.completed(event.code, true, 0))
        }
    }
}

// What a data event records stands one above its length; what was recorded before stays without one.
fn recorded_by(f: Option<Words>, v: Record) -> u64
    ensures { result ≡ recorded_by f v }
{
    match f {
        None => v.recorded,
        Some(w) => {
            let event = event::event_of(w);
            v.length
                .saturating_sub(event.remaining as u64)
                .wrapping_add(1)
        }
    }
}

fn length_of(v: Record, recorded: u64) -> u64
    ensures { result ≡ recorded_length v recorded }
{
    if recorded == 0 {
        v.length
    } else {
        recorded - 1
    }
}

// The place of the k-th TRB behind a first one: one of the slots 0 to L-2.
#[tactic(auto, unfolding(dock::specs::Reclaim::place_of))]
fn place_at(slots: usize, place: u64, k: usize) -> usize
    requires { (2 ≤ slots) × (place + 1 < slots) × (k < 3) }
    ensures { (result ≡ place_of slots place k) × (result + 1 < slots) }
{
    (place as usize + k) % (slots - 1)
}

// What stands at the data's place, which a request of length 0 has not.
fn data_seen(flight: Flight) -> Option<Words>
    ensures { result ≡ data_seen flight.entry.claim.endpoint flight.entry.finished.now flight.entry.claim.record }
{
    let claim = flight.claim;
    let v = claim.record;
    if v.length == 0 {
        return None;
    }
    let place = place_at(claim.endpoint.shape.slots, v.place, 1);
    finished::get_finished(flight.finished, place)
}

// How many TRBs behind the setup the status stands.
fn status_step(length: u64) -> usize
    ensures { (result ≡ pick (eqb length 0) 1 2) × (result < 3) }
{
    if length == 0 { 1 } else { 2 }
}

fn status_seen(flight: Flight) -> Option<Words>
    ensures { result ≡ finished_at flight.entry.finished.now (status_place flight.entry.claim.endpoint flight.entry.claim.record) }
{
    let claim = flight.claim;
    let v = claim.record;
    let place = place_at(claim.endpoint.shape.slots, v.place, status_step(v.length));
    finished::get_finished(flight.finished, place)
}

// A status event completes.
fn status_by(f: Option<Words>, claim: Claim, recorded: u64) -> After<Reclaimed>
    ensures { result ≡ status_by f claim.endpoint claim.record claim.number recorded }
{
    match f {
        None => unfinished(claim.endpoint),
        Some(w) => {
            let event = event::event_of(w);
            let size = length_of(claim.record, recorded);
            claim.completed(event.code, !is_accepted(event.code), size)
        }
    }
}

// Behind the setup: the data's event is recorded, then the status looked at.
#[tactic(auto, unfolding(crate::specs::Parts::after_setup))]
fn after_setup(seen: Option<Words>, flight: Flight, records: &mut [u64]) -> After<Reclaimed>
    requires { length records.old ≡ records_size }
    ensures { (result, records.new) ≡ after_setup seen flight.entry.claim.endpoint flight.entry.finished.now records.old flight.entry.claim.record flight.entry.claim.number }
{
    let claim = flight.claim;
    let recorded = recorded_by(seen, claim.record);
    records::set_word(records, claim.number, RECORDED, recorded);
    if let Some(r) = stage_by(seen, claim) {
        return r;
    }
    let f = status_seen(flight);
    status_by(f, claim, recorded)
}

#[tactic(auto, unfolding(dock::specs::Reclaim::reclaim_control, crate::specs::Parts::after_setup))]
pub fn reclaim_control(flight: Flight, records: &mut [u64]) -> After<Reclaimed>
    requires { length records.old ≡ records_size }
    ensures { (result, records.new) ≡ reclaim_control flight.entry.claim.endpoint flight.entry.finished.now records.old flight.entry.claim.record flight.entry.claim.number }
{
    let claim = flight.claim;
    let f = finished::get_finished(flight.finished, claim.record.place as usize);
    if let Some(r) = stage_by(f, claim) {
        return r;
    }
    let seen = data_seen(flight);
    after_setup(seen, flight, records)
}
