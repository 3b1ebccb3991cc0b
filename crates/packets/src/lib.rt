// The packet records: one word a packet, 64 packets a record. A word holds what was requested (bits 0-31), what was counted (bits 32-62) and
// whether the packet is marked as counted (bit 63), so any word is a packet.
#![tactic(auto)]

ghost use Rattle.std.specs.Prelude.{◌≡◌, ◌+◌, ◌*◌, ◌<◌, length};
ghost use Rattle.base.specs.Fields.{flag};
ghost use Rattle.packets.specs.Packets.{packet_of, packet_word, packet_index, packet_at, put_packet};

use sizes::PACKET_COUNT;

#[derive(Clone, Copy)]
pub struct Packet {
    pub requested: u32,
    pub actual: u32,
    pub marked: bool,
}

// What a word says.
impl From<u64> for Packet {
    ghost from_gives = { λ word packet. packet ≡ packet_of word };

    fn from(word: u64) -> Packet {
        Packet {
            requested: (word % 0x1_0000_0000) as u32,
            actual: (word / 0x1_0000_0000 % 0x8000_0000) as u32,
            marked: word / 0x8000_0000_0000_0000 == 1,
        }
    }
}

// The word of a packet; of what was counted the low 31 bits count.
impl From<Packet> for u64 {
    ghost from_gives = { λ packet word. word ≡ packet_word packet };

    fn from(p: Packet) -> u64 {
        let actual = p.actual % 0x8000_0000;
        u64::from(p.requested)
            + u64::from(actual) * 0x1_0000_0000
            + u64::from(p.marked) * 0x8000_0000_0000_0000
    }
}

// Packet k of record r.
#[tactic(auto, unfolding(crate::specs::Packets::packet_at))]
pub fn packet_at(packets: &[u64], r: usize, k: usize) -> Packet
    requires { packet_index r k < length packets.now }
    ensures { result ≡ packet_at packets.now r k }
{
    let at = PACKET_COUNT * r + k;
    Packet::from(packets[at])
}

#[tactic(auto, unfolding(crate::specs::Packets::put_packet))]
pub fn put_packet(packets: &mut [u64], r: usize, k: usize, p: Packet)
    requires { packet_index r k < length packets.old }
    ensures { packets.new ≡ put_packet packets.old r k p }
{
    let at = PACKET_COUNT * r + k;
    packets[at] = u64::from(p);
}
