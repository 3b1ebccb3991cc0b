// The reclaim of an isochronous request, over packets that are kept as words: they are read into packet records, which are walked and marked in place
// (crate `sweeping`), and those that the walk has marked go back into their words. Then the total is the sum.
#![tactic(auto)]

ghost use Rattle.std.specs.Prelude.{◌≡◌, ◌*◌, ◌≤◌, ◌<◌, length, get_or};
ghost use Rattle.sizes.specs.Sizes.{record_count, packet_count, packets_size};
ghost use Rattle.dock.specs.Reclaim.{total, sweep, reclaim_iso};
ghost use Rattle.marking.specs.Marking.{nowhere};
ghost use Rattle.marking.specs.Words.{swept_of, keep_one, keep_below};
ghost use Rattle.walk.specs.Loaded.{loaded};

use completing::{Flight, unfinished};
use dock::{After, Reclaimed};
use marking::{Block, Ended};
use packets::Packet;
use sizes::PACKET_COUNT;

// The first packets of a record, out of their words.
#[tactic(auto, using(crate::proofs::LoadLaws::loaded_more), unfolding(crate::specs::Loaded::loaded))]
fn load(packets: &[u64], number: usize, count: usize) -> [Packet; PACKET_COUNT]
    requires { (length packets.now ≡ packets_size) × (number < record_count) × (count ≤ packet_count) }
    ensures { result ≡ loaded count packets.now number }
{
    let none = Packet {
        requested: 0,
        actual: 0,
        marked: false,
    };
    let mut held = [none; PACKET_COUNT];
    for i in 0..count {
        held[i] = packets::packet_at(packets, number, i);
    }
    held
}

// A packet goes back into its word where it has been marked.
#[tactic(auto, unfolding(marking::specs::Words::keep_one))]
fn keep(packets: &mut [u64], number: usize, k: usize, p: Packet)
    requires { (length packets.old ≡ packets_size) × (number < record_count) × (k < packet_count) }
    ensures { packets.new ≡ keep_one packets.old number k p }
{
    if p.marked && !packets::packet_at(packets, number, k).marked {
        packets::put_packet(packets, number, k, p);
    }
}

#[tactic(auto, using(crate::proofs::LoadLaws::keep_none))]
fn keep_all(packets: &mut [u64], number: usize, count: usize, held: [Packet; PACKET_COUNT])
    requires { (length packets.old ≡ packets_size) × (number < record_count) × (count ≤ packet_count) }
    ensures { packets.new ≡ keep_below count packets.old number (λ j. get_or held j nowhere) }
{
    for i in 0..count {
        keep(packets, number, i, held[i]);
    }
}

// The bytes of the first k packets.
#[tactic(auto, using(crate::proofs::TotalLaws::actual_small, crate::proofs::TotalLaws::total_none, crate::proofs::TotalLaws::total_more))]
fn total_of(packets: &[u64], number: usize, k: usize) -> u64
    requires { (length packets.now ≡ packets_size) × (number < record_count) × (k ≤ packet_count) }
    ensures { result ≡ total k packets.now number }
{
    let mut sum: u64 = 0;
    for i in 0..k {
        sum += packets::packet_at(packets, number, i).actual as u64;
    }
    sum
}

// The walk over the record's packets, and how it ended.
fn walk_over(flight: Flight, packets: &mut [u64]) -> Ended
    requires { (length packets.old ≡ packets_size) × (flight.claim.record.count ≤ packet_count) }
    ensures { (swept_of result, packets.new) ≡ sweep flight.entry.claim.endpoint.shape.slots flight.entry.finished.now flight.entry.claim.record flight.entry.claim.number flight.entry.claim.record.count 0 packets.old }
{
    let claim = flight.claim;
    let count = claim.record.count as usize;
    let block = Block {
        first: 0,
        count,
        place: claim.record.place as usize,
        slots: claim.endpoint.shape.slots,
    };
    let held = load(packets, claim.number, count);
    let done = sweeping::marked_block(held, flight.finished, block);
    keep_all(packets, claim.number, count, done.packets);
    done.standing.ended
}

#[tactic(auto, unfolding(dock::specs::Reclaim::reclaim_iso))]
pub fn reclaim_iso(flight: Flight, packets: &mut [u64]) -> After<Reclaimed>
    requires { (length packets.old ≡ packets_size) × (flight.claim.record.count ≤ packet_count) }
    ensures { (result, packets.new) ≡ reclaim_iso flight.entry.claim.endpoint flight.entry.finished.now packets.old flight.entry.claim.record flight.entry.claim.number }
{
    let claim = flight.claim;
    match walk_over(flight, packets) {
        Ended::Open | Ended::Unfit | Ended::Other(..) => unfinished(claim.endpoint),
        Ended::Refused(code) => claim.completed(code, true, 0),
        Ended::Found(code) => {
            let size = total_of(packets, claim.number, claim.record.count as usize);
            claim.completed(code, false, size)
        }
    }
}
