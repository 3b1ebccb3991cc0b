// Packet records walked and marked in place, in the lent table: `mark_packets` is the loop alone, over the rule of `marking` (`begin`, `turn`), with every
// packet outside the request's block left as it is; `marked_block` is the same for packets by value.
#![tactic(auto)]

ghost use Rattle.std.specs.Prelude.{◌≡◌, ◌<◌};
ghost use Rattle.marking.specs.Marking.{walked};

use marking::{Block, Marked, Standing};
use packets::Packet;
use sizes::PACKET_COUNT;

// The loop: each packet is taken, turned and put back, until the walk stands at its end. It stays a `while`: the walk goes where each turn sends it, and
// back to the first packet when the last one is found, so that it counts no index.
pub fn mark_packets(packets: &mut [Packet], finished: &[u32], b: Block) -> Standing
    ensures { (packets.new ≡ (walked packets.old finished.now b).packets) × (result ≡ (walked packets.old finished.now b).standing) }
{
    let mut s = marking::begin(packets.len(), finished.len(), b);
    while s.at < s.end {
        let at = s.at;
        let t = marking::turn(packets[at], finished, s);
        packets[at] = t.packet;
        s = t.standing;
    }
    s
}

// The same over packets by value: they are lent from a local.
pub fn marked_block(packets: [Packet; PACKET_COUNT], finished: &[u32], b: Block) -> Marked
    ensures { (result.packets ≡ (walked packets finished.now b).packets) × (result.standing ≡ (walked packets finished.now b).standing) }
{
    let mut held = packets;
    let standing = mark_packets(&mut held, finished, b);
    Marked {
        packets: held,
        standing,
    }
}
