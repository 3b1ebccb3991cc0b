// The reclaim of a request by its id. Document 01, module 5 and rows 7 to 10.
//
// A stopped record is given back; one in flight is looked at by its kind: one event tells a bulk or an interrupt request, up to three a control
// request, and one for each packet an isochronous one, whose packets are marked and credited in the lent table. When a request is told, its record is
// freed and its TRBs leave flight.
//
// `reclaim_request` takes any endpoint, tables and numbers: it tests what it needs, and what it answers and leaves is its definition in `dock`.
#![tactic(auto)]

ghost use Rattle.std.specs.Prelude.{◌≡◌, false, ◌≤◌, length};
ghost use Rattle.sizes.specs.Sizes.{records_size, packet_count, packets_size};
ghost use Rattle.records.specs.Kinds.{isoch};
ghost use Rattle.records.specs.Records.{record_at};
ghost use Rattle.dock.specs.Reclaim.{reclaim_flying, reclaim};
ghost use Rattle.checks.specs.Shown.{Shown};
ghost use Rattle.refusal.specs.Misplaced.{misplaced};
ghost use Rattle.reclaiming.specs.Parts.{reclaim_at};

use completing::{Claim, Flight, unfinished};
use dock::{After, Endpoint, Reclaimed};
use records::{Kind, State};
use stages::bulk::reclaim_bulk;
use stages::control::reclaim_control;
use walk::reclaim_iso;

// A record in flight, by its kind; a kind that is none never finishes.
#[tactic(auto, unfolding(dock::specs::Reclaim::reclaim_flying))]
fn reclaim_flying(flight: Flight, records: &mut [u64], packets: &mut [u64]) -> After<Reclaimed>
    requires { (length records.old ≡ records_size) × (length packets.old ≡ packets_size) × (flight.claim.record.kind ≡ isoch → flight.claim.record.count ≤ packet_count) }
    ensures { (result, records.new, packets.new) ≡ reclaim_flying flight.entry.claim.endpoint flight.entry.finished.now records.old packets.old flight.entry.claim.record flight.entry.claim.number }
{
    match Kind::from_word(flight.claim.record.kind) {
        Some(Kind::Control) => reclaim_control(flight, records),
        Some(Kind::Isoch) => reclaim_iso(flight, packets),
        Some(Kind::Bulk | Kind::Interrupt) => reclaim_bulk(flight),
        None => unfinished(flight.claim.endpoint),
    }
}

// Record r, by its state. A stopped one's TRBs left flight when it was retired.
#[tactic(auto, unfolding(crate::specs::Parts::reclaim_at))]
fn reclaim_at(
    e: Endpoint,
    finished: &[u32],
    records: &mut [u64],
    packets: &mut [u64],
    r: usize,
) -> After<Reclaimed>
    requires { (Shown e.shape.slots (length finished.now) 0 r) × (length records.old ≡ records_size) × (length packets.old ≡ packets_size) × (misplaced e.shape.slots (record_at records.old r) ≡ false) }
    ensures { (result, records.new, packets.new) ≡ reclaim_at r e finished.now records.old packets.old }
{
    let v = records::record_at(records, r);
    let claim = Claim {
        endpoint: e,
        record: v,
        number: r,
    };
    match State::from_word(v.state) {
        Some(State::Stopped) => claim.stopped(),
        Some(State::InFlight) => reclaim_flying(Flight { claim, finished }, records, packets),
        None => unfinished(e),
    }
}

// A request is reclaimed by its id.
pub fn reclaim_request(
    e: Endpoint,
    finished: &[u32],
    records: &mut [u64],
    packets: &mut [u64],
    id: u64,
) -> After<Reclaimed>
    ensures { (result, records.new, packets.new) ≡ reclaim e finished.now records.old packets.old id }
{
    let checked = refusal::reclaim_no(e, finished.len(), records, packets.len(), id);
    if let Err(refusal) = checked {
        return After {
            answer: Err(refusal),
            endpoint: e,
        };
    }
    let found = ids::find_id(records, e.account.occupancy, id);
    match found {
        None => unfinished(e),
        Some(r) => reclaim_at(e, finished, records, packets, r),
    }
}
