// One TRB: its store, its place in the finished table cleared, and the TD's link behind it, chained or not, where the place reaches L-1.
ghost use Rattle.std.specs.Prelude.{◌≡◌, ◌+◌, ◌*◌, ◌≤◌, ◌<◌, length};
ghost use Rattle.ring.specs.declared.Manner.TheVariants.{Onward};
ghost use Rattle.striding.specs.Stride.{Placed, link_on, put_trb};

use dock::Shape;
use ring::Position;
use trb::Trb;

// "Reaching L-1 it adds a second store, the link at L-1 with the old cycle, then place 0 and the cycle toggled."
#[tactic(auto, unfolding(crate::specs::Stride::link_on))]
fn link_on(ring: &mut [u32], shape: Shape, chain: bool, p: Position) -> Position
    requires { (4 * shape.slots ≤ length ring.old) × (2 ≤ shape.slots) × (p.place < shape.slots) }
    ensures { ((result, ring.new) ≡ link_on shape chain p ring.old) × (result.place + 1 < shape.slots) }
{
    if p.place + 1 != shape.slots {
        return p;
    }
    ring::next_index(ring, p, shape.base, chain)
}

// A TRB with the current cycle; or, deferred, with the opposite one: the controller does not take it yet.
#[tactic(auto, unfolding(crate::specs::Stride::put_trb, crate::specs::Stride::link_on))]
pub fn put_trb(
    ring: &mut [u32],
    finished: &mut [u32],
    shape: Shape,
    chain: bool,
    p: Position,
    trb: Trb,
    deferred: bool,
) -> Position
    requires { Placed shape p (length ring.old) (length finished.old) }
    ensures { ((result, ring.new, finished.new) ≡ put_trb shape chain p trb (Onward deferred) ring.old finished.old) × (result.place + 1 < shape.slots) }
{
    finished::clear_finished(finished, p.place);
    let q = if deferred {
        ring::enque_transfer_deferred_cycle(ring, p, trb)
    } else {
        ring::enque_transfer(ring, p, trb)
    };
    link_on(ring, shape, chain, q)
}
