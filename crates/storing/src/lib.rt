// One store of a submission: its refusals, and the store by what is next.
//
// `store_no` takes any input. `store_one` asks what the tests showed (`Ready`); `next_store` of the crate `building` calls it behind them.
#![tactic(auto)]

ghost use Rattle.std.specs.Prelude.{◌≡◌, not, ◌&&◌, ◌+◌, ◌*◌, ◌≤◌, ◌<◌, eqb, length};
ghost use Rattle.sizes.specs.Sizes.{ring_size, packet_count, packets_size};
ghost use Rattle.dock.specs.RowOne.{fits_with};
ghost use Rattle.dock.specs.Refusals.{verdict};
ghost use Rattle.dock.specs.NextStore.{store_no};
ghost use Rattle.storing.specs.Ready.{Ready};
ghost use Rattle.storing.specs.Stored.{link_by, trb_by, first_by, stored_by};

use checks::Next;
use dock::{After, Endpoint, Refusal, Stored, refuse};
use records::Record;
use ring::Position;

// Row 1: the endpoint, its records and the other tables fit.
fn is_unfit(e: Endpoint, ring: usize, finished: usize, records: &[u64], packets: usize) -> bool
    ensures { result ≡ not (fits_with e records.now && eqb ring (ring_size e.shape.slots) && eqb finished (ring_size e.shape.slots) && eqb packets packets_size) }
{
    let fits = checks::fits_with(e, records)
        && limits::is_sized(ring, e.shape.slots)
        && limits::is_sized(finished, e.shape.slots)
        && packets == sizes::PACKETS_SIZE;
    !fits
}

// Row 1, then 10: "a store .. with none under way".
#[tactic(auto, unfolding(dock::specs::NextStore::store_no, dock::specs::NextStore::store_tests))]
pub fn store_no(
    e: Endpoint,
    ring: usize,
    finished: usize,
    records: &[u64],
    packets: usize,
) -> Result<(), Refusal>
    ensures { result ≡ verdict (store_no e ring finished records.now packets) }
{
    refuse(
        is_unfit(e, ring, finished, records, packets),
        Refusal::Unfit,
    )?;
    refuse(!e.work.busy, Refusal::NotUnderWay)
}

// The link's store.
#[tactic(auto, unfolding(crate::specs::Stored::link_by))]
fn store_link(e: Endpoint, v: Record, ring: &mut [u32]) -> After<Stored>
    requires { (4 * e.at.place + 4 ≤ length ring.old) × (0 < e.shape.slots) }
    ensures { (result, ring.new) ≡ link_by e v ring.old }
{
    let p = e.at;
    let chain = checks::is_chained(e, v);
    let q = ring::next_index(ring, p, e.shape.base, chain);
    let w = e.work;
    let after = steps::with_store(
        e,
        q,
        e.periodic.frame,
        steps::with_stored(w, w.stored, w.address),
    );
    steps::concluded(after, v, p.place)
}

// A TRB's store: "a TRB's first store clears" its place.
#[tactic(auto, unfolding(crate::specs::Stored::trb_by, steps::specs::Steps::advanced_by, ring::specs::Ring::stored_by))]
fn store_trb(
    e: Endpoint,
    v: Record,
    size: u32,
    ring: &mut [u32],
    finished: &mut [u32],
) -> After<Stored>
    requires { (4 * e.at.place + 4 ≤ length ring.old) × (4 * e.at.place + 4 ≤ length finished.old) × (e.work.stored ≤ packet_count) × (0 < e.shape.slots) }
    ensures { (result, ring.new, finished.new) ≡ trb_by e v size ring.old finished.old }
{
    let p = e.at;
    let place = p.place;
    let trb = trbs::trb_of(e, v, size, e.work.stored);
    let q = ring::stored(ring, p, trb, steps::manner_of(e, v));
    finished::clear_finished(finished, place);
    steps::concluded(steps::advanced(e, q, v, size), v, place)
}

// The first TRB's second store, with the right cycle.
#[tactic(auto, unfolding(crate::specs::Stored::first_by))]
fn store_first(e: Endpoint, v: Record, ring: &mut [u32]) -> After<Stored>
    requires { (4 * e.work.place + 4 ≤ length ring.old) × (e.work.stored ≤ packet_count) × (0 < e.shape.slots) }
    ensures { (result, ring.new) ≡ first_by e v ring.old }
{
    let p = e.at;
    let w = e.work;
    let first = Position {
        place: w.place,
        cycle: w.cycle,
    };
    ring::enque_transfer_again(ring, first, trbs::first_trb(v));
    let after = steps::with_store(
        e,
        p,
        e.periodic.frame,
        steps::with_stored(w, w.stored + 1, w.address),
    );
    steps::concluded(after, v, first.place)
}

// The store that is next.
#[tactic(auto, using(crate::proofs::StoreLaws::link_stored, crate::proofs::StoreLaws::trb_stored_lem, crate::proofs::StoreLaws::none_stored), unfolding(crate::specs::Stored::stored_by))]
pub fn store_one(
    e: Endpoint,
    ring: &mut [u32],
    finished: &mut [u32],
    records: &[u64],
    packets: &[u64],
) -> After<Stored>
    requires { Ready e (length ring.old) (length finished.old) records.now (length packets.now) }
    ensures { (result, ring.new, finished.new) ≡ stored_by e ring.old finished.old records.now packets.now }
{
    let number = e.work.number;
    let v = records::record_at(records, number);
    match checks::next_of(e, v) {
        Some(Next::Link) => store_link(e, v, ring),
        Some(Next::Trb) => {
            let p = packets::packet_at(packets, number, e.work.stored);
            store_trb(e, v, p.requested, ring, finished)
        }
        Some(Next::First) => store_first(e, v, ring),
        None => steps::concluded(e, v, 0),
    }
}
