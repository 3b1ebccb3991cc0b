// A whole submission's stores, by the kind of its request: each table is touched once, the position, the running address and the frame number are carried
// along, and the endpoint is rebuilt once, at the end.
//
// `send` asks what the tests of a submission showed (`Sendable`); `submit_request` of the crate `building` calls it behind them.
#![tactic(auto)]

ghost use Rattle.std.specs.Prelude.{◌≡◌, ◌≤◌, length};
ghost use Rattle.sizes.specs.Sizes.{packet_count};
ghost use Rattle.records.specs.Kinds.{isoch};
ghost use Rattle.dock.specs.Start.{at_least_one};
ghost use Rattle.striding.specs.Stride.{Placed};
ghost use Rattle.sending.specs.Sent.{ended, sent_isoch, plain_put, sent_by, Sendable};

use dock::{After, Endpoint, Submitted};
use isoch::{Pen, Plan};
use records::{Kind, Record};
use ring::Position;
use striding::{deferred, put};

// The end of a submission: nothing is under way.
fn ended(e: Endpoint, id: u64, p: Position, frame: u16) -> After<Submitted>
    ensures { result ≡ ended e id p frame }
{
    After {
        answer: Ok(Submitted {
            id,
            bell: e.who.dci as u32,
        }),
        endpoint: steps::with_store(e, p, frame, steps::idle()),
    }
}

#[tactic(auto, unfolding(crate::specs::Sent::sent_isoch))]
fn send_isoch(
    e: Endpoint,
    v: Record,
    ring: &mut [u32],
    finished: &mut [u32],
    packets: &mut [u64],
    lengths: &[u64],
) -> After<Submitted>
    requires { Sendable e (length ring.old) (length finished.old) (length packets.old) × (length lengths.now ≤ packet_count) }
    ensures { (result, ring.new, finished.new, packets.new) ≡ sent_isoch e v ring.old finished.old packets.old (at_least_one lengths.now) }
{
    let start = sizes::PACKET_COUNT * e.work.number;
    let plan = Plan {
        shape: e.shape,
        periodic: e.periodic,
        incoming: v.incoming,
    };
    let pen = Pen {
        at: e.at,
        address: e.work.address,
        frame: e.periodic.frame,
    };
    let end = isoch::put_isoch(ring, finished, packets, start, plan, pen, lengths);
    ended(e, v.id, end.at, end.frame)
}

// A deferred TD, or one TRB.
#[tactic(auto, unfolding(crate::specs::Sent::plain_put))]
fn put_plain(ring: &mut [u32], finished: &mut [u32], e: Endpoint, v: Record) -> Position
    requires { Placed e.shape e.at (length ring.old) (length finished.old) }
    ensures { (result, ring.new, finished.new) ≡ plain_put e v ring.old finished.old }
{
    let chain = checks::is_chained(e, v);
    if checks::is_deferred(v) {
        return deferred::put_deferred_td(ring, finished, e.shape, chain, e.at, v);
    }
    let trb = trbs::normal_trb(e, v);
    put::put_trb(ring, finished, e.shape, chain, e.at, trb, false)
}

#[tactic(auto, unfolding(crate::specs::Sent::sent_by))]
pub fn send(
    e: Endpoint,
    v: Record,
    ring: &mut [u32],
    finished: &mut [u32],
    packets: &mut [u64],
    lengths: &[u64],
) -> After<Submitted>
    requires { Sendable e (length ring.old) (length finished.old) (length packets.old) × (v.kind ≡ isoch → length lengths.now ≤ packet_count) }
    ensures { (result, ring.new, finished.new, packets.new) ≡ sent_by e v ring.old finished.old packets.old lengths.now }
{
    if v.has_kind(Kind::Isoch) {
        return send_isoch(e, v, ring, finished, packets, lengths);
    }
    let p = put_plain(ring, finished, e, v);
    ended(e, v.id, p, e.periodic.frame)
}
