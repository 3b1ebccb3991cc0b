// The burst counts of an isochronous packet: document 01, "Words of a TRB", Burst. Document 02, E3: "with fewer of them, where possible with none for a packet
// no longer than the max packet size": that one is not divided, one that is sent in a single burst is divided once, any other twice.
#![tactic(auto)]

ghost use Rattle.std.specs.Prelude.{◌≡◌, ◌<◌, min};
ghost use Rattle.bursts.specs.Bursts.{packets_of, bursts_of};

// The burst count and the last-burst count of an Isoch TRB.
#[derive(Clone, Copy)]
pub struct Bursts {
    pub count: u32,
    pub last: u32,
}

// The packets of a length, of at most `packet` bytes each: 1 at least, and 1 where no size is set.
fn packets(length: u64, packet: u16) -> u64
    ensures { (result ≡ packets_of length packet) × (0 < result) }
{
    if length <= packet as u64 || packet == 0 {
        return 1;
    }
    length.div_ceil(packet as u64)
}

// The counts as a TRB has them, of the bursts before the last one and of the last one's packets but one.
fn limited(count: u64, last: u64) -> Bursts
    ensures { result ≡ record { count = min 31 count; last = min 15 last } }
{
    Bursts {
        count: count.min(31) as u32,
        last: last.min(15) as u32,
    }
}

pub fn bursts_of(length: u64, packet: u16, burst: u8) -> Bursts
    ensures { result ≡ bursts_of length packet burst }
{
    let all = packets(length, packet);
    let each = burst as u64 + 1;
    if all <= each {
        return limited(0, all - 1);
    }
    limited((all - 1) / each, (all - 1) % each)
}
