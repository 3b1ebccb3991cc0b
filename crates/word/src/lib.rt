// The words of the TRBs, each by itself: a word is arithmetic on its fields, proved equal to the word of its list of fields.
#![tactic(auto)]

ghost use Rattle.std.specs.Prelude.{◌≡◌, ◌<◌};
ghost use Rattle.base.specs.Fields.{flag, word};
ghost use Rattle.trb.specs.Layouts.{address_low, address_high, pointer_low, sizes, setup_request, setup_index, setup_control};
ghost use Rattle.trb.specs.Layouts.{data_control, status_control, normal_control, isoch_control, link_control, command_control};

pub fn low(address: u64) -> u32
    ensures { result ≡ word (address_low address) }
{
    (address % 0x1_0000_0000) as u32
}

pub fn high(address: u64) -> u32
    ensures { result ≡ word (address_high address) }
{
    (address / 0x1_0000_0000) as u32
}

pub fn pointer(address: u64, state: bool) -> u32
    ensures { result ≡ word (pointer_low address state) }
{
    let upper = (address / 16 % 0x1000_0000) as u32;
    u32::from(state) + upper * 16
}

pub fn sized(length: u32, size: u32, target: u32) -> u32
    ensures { result ≡ word (sizes length size target) }
{
    length % 0x2_0000 + size % 32 * 0x2_0000 + target % 1024 * 0x40_0000
}

pub fn request(flags: u8, request: u8, value: u16) -> u32
    ensures { result ≡ word (setup_request flags request value) }
{
    flags as u32 + request as u32 * 0x100 + value as u32 * 0x1_0000
}

pub fn index(index: u16, length: u16) -> u32
    ensures { result ≡ word (setup_index index length) }
{
    index as u32 + length as u32 * 0x1_0000
}

pub fn setup(cycle: bool, transfer: u32) -> u32
    ensures { result ≡ word (setup_control cycle transfer) }
{
    u32::from(cycle) + 0x840 + transfer % 4 * 0x1_0000
}

pub fn data(cycle: bool, short: bool, incoming: bool) -> u32
    ensures { result ≡ word (data_control cycle short incoming) }
{
    u32::from(cycle) + u32::from(short) * 4 + 0xc00 + u32::from(incoming) * 0x1_0000
}

pub fn status(cycle: bool, interrupt: bool, incoming: bool) -> u32
    ensures { result ≡ word (status_control cycle interrupt incoming) }
{
    u32::from(cycle) + u32::from(interrupt) * 32 + 0x1000 + u32::from(incoming) * 0x1_0000
}

pub fn normal(cycle: bool, short: bool, chain: bool, interrupt: bool) -> u32
    ensures { result ≡ word (normal_control cycle short chain interrupt) }
{
    u32::from(cycle)
        + u32::from(short) * 4
        + u32::from(chain) * 16
        + u32::from(interrupt) * 32
        + 0x400
}

pub fn isoch(
    cycle: bool,
    short: bool,
    chain: bool,
    interrupt: bool,
    block: bool,
    last: u32,
    frame: u32,
    asap: bool,
) -> u32
    ensures { result ≡ word (isoch_control cycle short chain interrupt block last frame asap) }
{
    let flags = u32::from(cycle)
        + u32::from(short) * 4
        + u32::from(chain) * 16
        + u32::from(interrupt) * 32;
    let counts = u32::from(block) * 0x200 + 0x1400 + last % 16 * 0x1_0000;
    flags + counts + frame % 0x800 * 0x10_0000 + u32::from(asap) * 0x8000_0000
}

pub fn link(cycle: bool, toggle: bool, chain: bool) -> u32
    ensures { result ≡ word (link_control cycle toggle chain) }
{
    u32::from(cycle) + u32::from(toggle) * 2 + u32::from(chain) * 16 + 0x1800
}

// A command for an endpoint, of any type.
pub fn command(cycle: bool, form: u32, endpoint: u8, slot: u8) -> u32
    ensures { result ≡ word (command_control cycle form endpoint slot) }
{
    u32::from(cycle)
        + form % 64 * 0x400
        + endpoint as u32 % 32 * 0x1_0000
        + slot as u32 * 0x100_0000
}
