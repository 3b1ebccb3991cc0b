// The reclaim of a bulk or an interrupt request: one event, at the request's place.
ghost use Rattle.std.specs.Prelude.{◌≡◌};
ghost use Rattle.dock.specs.Reclaim.{bulk_by, reclaim_bulk};

use completing::{Claim, Flight, unfinished};
use dock::{After, Reclaimed};
use trb::Words;
use worth::is_accepted;

fn by_event(f: Option<Words>, claim: Claim) -> After<Reclaimed>
    ensures { result ≡ bulk_by f claim.endpoint claim.record claim.number }
{
    match f {
        None => unfinished(claim.endpoint),
        Some(w) => {
            let event = event::event_of(w);
            let v = claim.record;
            let size = v.length.saturating_sub(event.remaining as u64);
            claim.completed(event.code, !is_accepted(event.code), size)
        }
    }
}

#[tactic(auto, unfolding(dock::specs::Reclaim::reclaim_bulk))]
pub fn reclaim_bulk(flight: Flight) -> After<Reclaimed>
    ensures { result ≡ reclaim_bulk flight.entry.claim.endpoint flight.entry.finished.now flight.entry.claim.record flight.entry.claim.number }
{
    let claim = flight.claim;
    let f = finished::get_finished(flight.finished, claim.record.place as usize);
    by_event(f, claim)
}
