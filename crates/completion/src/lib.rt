// The completion of requests: an event is handed over, and a request is cancelled. Document 01, module 5 and row 11. (`reclaiming` has the reclaim.)
//
// An event goes to the place of the finished table that is its slot's, and stays there. A cancel marks its record; the completion then answers 7.
//
// Each call takes any endpoint, tables and numbers: it tests what it needs, and what it answers and leaves is its definition in `dock`.
#![tactic(auto)]

ghost use Rattle.std.specs.Prelude.{◌≡◌, ◌*◌, length};
ghost use Rattle.sizes.specs.Sizes.{records_size};
ghost use Rattle.ids.specs.Lookup.{find_in};
ghost use Rattle.dock.specs.Cancel.{marked, cancel};
ghost use Rattle.dock.specs.HandOver.{hand_over};

use dock::{Endpoint, Refusal};
use mask::Occupancy;
use records::CANCELLED;

// An event is handed over: its place is filled.
pub fn hand_over(e: Endpoint, finished: &mut [u32], event: trb::Words) -> Result<usize, Refusal>
    ensures { (result, finished.new) ≡ hand_over e finished.old event }
{
    refusal::hand_over_no(e, finished.len(), event)?;
    let slot = refusal::place_for(e, event);
    finished::set_finished(finished, slot, event);
    Ok(slot)
}

// The record with the id is marked as cancelled.
fn mark(records: &mut [u64], occupancy: Occupancy, id: u64)
    requires { length records.old ≡ records_size }
    ensures { records.new ≡ marked records.old (find_in records.old occupancy id) }
{
    let found = ids::find_id(records, occupancy, id);
    match found {
        None => {}
        Some(r) => records::set_word(records, r, CANCELLED, 1),
    }
}

// A request is cancelled: its completion will answer 7.
pub fn cancel_request(e: Endpoint, records: &mut [u64], id: u64) -> Result<(), Refusal>
    ensures { (result, records.new) ≡ cancel e records.old id }
{
    refusal::cancel_no(e, records, id)?;
    mark(records, e.account.occupancy, id);
    Ok(())
}
