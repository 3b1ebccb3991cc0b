// What a packet is worth: the bytes that an event with a completion code counts for, or that its code is refused. Document 01, "What a packet is worth".
#![tactic(auto)]

ghost use Rattle.std.specs.Prelude.{◌≡◌};
ghost use Rattle.dock.specs.Worth.{accepted, counts, worth};
ghost use Rattle.worth.specs.Values.{worth_of};

// The codes that control, bulk and interrupt accept: Success and Short Packet.
#[tactic(auto, unfolding(dock::specs::Worth::accepted))]
pub fn is_accepted(code: u32) -> bool
    ensures { result ≡ accepted code }
{
    matches!(code, 1 | 13)
}

// The codes of an isochronous packet whose bytes are those asked for less those remaining.
#[tactic(auto, unfolding(dock::specs::Worth::counts))]
fn is_counted(code: u32) -> bool
    ensures { result ≡ counts code }
{
    matches!(code, 1 | 3 | 4 | 13 | 23 | 26 | 31)
}

// What an isochronous packet's event counts for: bytes, or nothing where its code is refused.
#[tactic(auto, unfolding(dock::specs::Worth::worth))]
pub fn value_of(code: u32, requested: u32, remaining: u32) -> Option<u32>
    ensures { worth_of result ≡ worth code requested remaining }
{
    if is_counted(code) {
        return Some(requested.saturating_sub(remaining));
    }
    match code {
        28 => Some(remaining),
        27 => Some(0),
        _ => None,
    }
}
