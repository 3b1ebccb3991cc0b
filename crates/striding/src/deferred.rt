// A deferred TD: its first TRB with the opposite cycle, the rest, and the first again.
ghost use Rattle.std.specs.Prelude.{◌≡◌, length};
ghost use Rattle.striding.specs.Stride.{Placed};
ghost use Rattle.striding.specs.Deferred.{stages_put, deferred_put};

use crate::put;
use dock::Shape;
use records::Record;
use ring::Position;

// The rest of a control TD: data where there is any, then status.
#[tactic(auto, unfolding(crate::specs::Deferred::stages_put))]
fn put_stages(
    ring: &mut [u32],
    finished: &mut [u32],
    shape: Shape,
    chain: bool,
    p: Position,
    v: Record,
) -> Position
    requires { Placed shape p (length ring.old) (length finished.old) }
    ensures { (result, ring.new, finished.new) ≡ stages_put shape chain v (p, ring.old, finished.old) }
{
    if v.length == 0 {
        return put::put_trb(ring, finished, shape, chain, p, trbs::status_trb(v), false);
    }
    let q = put::put_trb(ring, finished, shape, chain, p, trbs::data_trb(v), false);
    put::put_trb(ring, finished, shape, chain, q, trbs::status_trb(v), false)
}

// "A control TD stores its setup with the opposite cycle, the rest as usual, then the setup again with the right one."
#[tactic(auto, unfolding(crate::specs::Deferred::deferred_put))]
pub fn put_deferred_td(
    ring: &mut [u32],
    finished: &mut [u32],
    shape: Shape,
    chain: bool,
    p: Position,
    v: Record,
) -> Position
    requires { Placed shape p (length ring.old) (length finished.old) }
    ensures { (result, ring.new, finished.new) ≡ deferred_put shape chain p v ring.old finished.old }
{
    let first = trbs::first_trb(v);
    let q = put::put_trb(ring, finished, shape, chain, p, first, true);
    let end = put_stages(ring, finished, shape, chain, q, v);
    ring::enque_transfer_again(ring, p, first);
    end
}
