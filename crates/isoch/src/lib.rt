// The packets of an ISO request: each length is read once, written to its packet record and stored in its TRB.
#![tactic(auto)]

ghost use Rattle.std.specs.Prelude.{◌≡◌, ◌+◌, ◌<◌, ◌≤◌, length};
ghost use Rattle.std.proofs.Math.Seq.{paste};
ghost use Rattle.bursts.specs.Bursts.{bursts_of};
ghost use Rattle.sizes.specs.Sizes.{packet_count};
ghost use Rattle.dock.specs.Start.{at_least_one};
ghost use Rattle.striding.specs.Stride.{Placed};
ghost use Rattle.isoch.specs.Packed.{packet_put, all_put};

use bursts::Bursts;
use dock::{Periodic, Shape};
use ring::Position;
use striding::put;

// What every packet of an ISO submission goes by: the ring's shape, the endpoint's settings and the direction.
#[derive(Clone, Copy)]
pub struct Plan {
    pub shape: Shape,
    pub periodic: Periodic,
    pub incoming: bool,
}

// Where an ISO submission stands: the producer's position, the running address and the next frame number.
#[derive(Clone, Copy)]
pub struct Pen {
    pub at: Position,
    pub address: u64,
    pub frame: u16,
}

// The burst counts of a length, which need no new division where the length before it was the same.
fn bursts_again(s: Periodic, size: u64, bursts: Bursts, next: u64) -> Bursts
    requires { bursts ≡ bursts_of size s.packet s.burst }
    ensures { result ≡ bursts_of next s.packet s.burst }
{
    if next == size {
        return bursts;
    }
    bursts::bursts_of(next, s.packet, s.burst)
}

// One packet's store. A packet is a TD of its own: its link is not chained.
#[tactic(auto, unfolding(crate::specs::Packed::packet_put))]
fn put_packet(
    ring: &mut [u32],
    finished: &mut [u32],
    plan: Plan,
    pen: Pen,
    size: u64,
    bursts: Bursts,
    more: bool,
) -> Pen
    requires { Placed plan.shape pen.at (length ring.old) (length finished.old) × (bursts ≡ bursts_of size plan.periodic.packet plan.periodic.burst) }
    ensures { ((result, ring.new, finished.new) ≡ packet_put plan.shape plan.periodic plan.incoming size more pen ring.old finished.old) × (result.at.place + 1 < plan.shape.slots) }
{
    let trb = trbs::packet_trb(pen.address, size, bursts, plan.incoming, more);
    let at = put::put_trb(ring, finished, plan.shape, false, pen.at, trb, false);
    Pen {
        at,
        address: pen.address.wrapping_add(size),
        frame: steps::frame_after(pen.frame, plan.periodic.interval),
    }
}

// All packets, their records from a word on.
fn put_packets(
    ring: &mut [u32],
    finished: &mut [u32],
    packets: &mut [u64],
    start: usize,
    plan: Plan,
    pen: Pen,
    sizes: &[u64],
) -> Pen
    requires { Placed plan.shape pen.at (length ring.old) (length finished.old) × (start + length sizes.now ≤ length packets.old) }
    ensures { ((result, ring.new, finished.new) ≡ all_put plan.shape plan.periodic plan.incoming sizes.now pen ring.old finished.old) × (packets.new ≡ paste packets.old start sizes.now (length sizes.now)) }
{
    let mut at = pen;
    let mut size: u64 = 0;
    let mut bursts = bursts::bursts_of(0, plan.periodic.packet, plan.periodic.burst);
    for (i, &next) in sizes.iter().enumerate() {
        packets[start + i] = next;
        bursts = bursts_again(plan.periodic, size, bursts, next);
        size = next;
        at = put_packet(ring, finished, plan, at, size, bursts, i + 1 != sizes.len());
    }
    at
}

// "No packets means one packet of length 0."
pub fn put_isoch(
    ring: &mut [u32],
    finished: &mut [u32],
    packets: &mut [u64],
    start: usize,
    plan: Plan,
    pen: Pen,
    lengths: &[u64],
) -> Pen
    requires { Placed plan.shape pen.at (length ring.old) (length finished.old) × (start + packet_count ≤ length packets.old) × (length lengths.now ≤ packet_count) }
    ensures { ((result, ring.new, finished.new) ≡ all_put plan.shape plan.periodic plan.incoming (at_least_one lengths.now) pen ring.old finished.old) × (packets.new ≡ paste packets.old start (at_least_one lengths.now) (length (at_least_one lengths.now))) }
{
    let none: [u64; 1] = [0];
    let sizes = if lengths.is_empty() { &none } else { lengths };
    put_packets(ring, finished, packets, start, plan, pen, sizes)
}
