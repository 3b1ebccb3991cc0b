// The TRBs of a request, computed from its record and the size of its packet. Document 01, "Words of a TRB".
#![tactic(auto)]

ghost use Rattle.std.specs.Prelude.{◌≡◌, not, ◌&&◌, ◌≤◌, ltb};
ghost use Rattle.sizes.specs.Sizes.{packet_count};
ghost use Rattle.dock.specs.Trbs.{transfer_type, setup_trb, data_trb, status_trb, normal_trb, packet_trb, isoch_trb};
ghost use Rattle.trbs.specs.Trbs.{first_of, control_trb, trb_with};

use bursts::Bursts;
use dock::Endpoint;
use records::{Kind, Record};
use trb::Trb;

// Setup: "bits 16-17 = 0 no data, 2 out, 3 in".
fn transfer_type(v: Record) -> u32
    ensures { result ≡ transfer_type v }
{
    match (v.length, v.incoming) {
        (0, _) => 0,
        (_, true) => 3,
        (_, false) => 2,
    }
}

fn setup_trb(v: Record) -> Trb
    ensures { result ≡ setup_trb v }
{
    Trb::Setup {
        request_type: (v.setup % 0x100) as u8,
        request: (v.setup / 0x100 % 0x100) as u8,
        value: (v.setup / 0x1_0000 % 0x1_0000) as u16,
        index: (v.setup / 0x1_0000_0000 % 0x1_0000) as u16,
        length: (v.length % 0x1_0000) as u16,
        transfer: transfer_type(v),
    }
}

// The first TRB of a deferred TD, which goes by its record alone.
#[tactic(auto, unfolding(crate::specs::Trbs::first_of))]
pub fn first_trb(v: Record) -> Trb
    ensures { result ≡ first_of v }
{
    setup_trb(v)
}

// Data: "bit 2 (short interrupt) and bit 16 when in".
pub fn data_trb(v: Record) -> Trb
    ensures { result ≡ data_trb v }
{
    Trb::Data {
        address: v.address,
        length: (v.length % 0x2_0000) as u32,
        short: v.incoming,
        incoming: v.incoming,
    }
}

// The status stage goes in, but for in with data.
fn status_in(v: Record) -> bool
    ensures { result ≡ not (v.incoming && ltb 0 v.length) }
{
    !(v.incoming && 0 < v.length)
}

// Status: "bit 5 (interrupt), bit 16 clear exactly for in with data".
pub fn status_trb(v: Record) -> Trb
    ensures { result ≡ status_trb v }
{
    Trb::Status {
        interrupt: true,
        incoming: status_in(v),
    }
}

// Normal: "address, length, w3 bits 2 and 5".
pub fn normal_trb(e: Endpoint, v: Record) -> Trb
    ensures { result ≡ normal_trb e v }
{
    Trb::Normal {
        address: v.address,
        length: (v.length % 0x2_0000) as u32,
        size: 0,
        target: 0,
        short: true,
        chain: false,
        interrupt: true,
    }
}

// Isoch: "bit 2 when in, bit 5, bit 9 on all but the last packet, last-burst count at bit 16, bit 31".
pub fn packet_trb(address: u64, size: u64, bursts: Bursts, incoming: bool, more: bool) -> Trb
    ensures { result ≡ packet_trb bursts incoming address size more }
{
    Trb::Isoch {
        address,
        length: (size % 0x2_0000) as u32,
        bursts: bursts.count,
        target: 0,
        short: incoming,
        chain: false,
        interrupt: true,
        block: more,
        last: bursts.last,
        frame: 0,
        asap: true,
    }
}

// Packet k of the request under way, of so many bytes.
fn isoch_trb(e: Endpoint, v: Record, size: u32, k: usize) -> Trb
    requires { k ≤ packet_count }
    ensures { result ≡ isoch_trb e v k size }
{
    let b = bursts::bursts_of(size as u64, e.periodic.packet, e.periodic.burst);
    let more = k as u64 + 1 != checks::trb_count(v);
    packet_trb(e.work.address, size as u64, b, v.incoming, more)
}

// TRB k of a control request: setup, data where there is any, status.
#[tactic(auto, unfolding(crate::specs::Trbs::control_trb))]
fn control_trb(v: Record, k: usize) -> Trb
    ensures { result ≡ control_trb v k }
{
    match k {
        0 => setup_trb(v),
        1 if 0 < v.length => data_trb(v),
        _ => status_trb(v),
    }
}

// TRB k of a record's request, whose packet k asks for so many bytes.
#[tactic(auto, unfolding(crate::specs::Trbs::trb_with))]
pub fn trb_of(e: Endpoint, v: Record, size: u32, k: usize) -> Trb
    requires { k ≤ packet_count }
    ensures { result ≡ trb_with e v size k }
{
    match Kind::from_word(v.kind) {
        Some(Kind::Control) => control_trb(v, k),
        Some(Kind::Isoch) => isoch_trb(e, v, size, k),
        _ => normal_trb(e, v),
    }
}
