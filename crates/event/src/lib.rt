// The event reader: a transfer event's four words taken apart. Document 01, "Words of a TRB".
#![tactic(auto)]

ghost use Rattle.std.specs.Prelude.{◌≡◌};
ghost use Rattle.event.specs.Event.{event_of};

use trb::Words;

// What a transfer event says: its type, of which slot and endpoint, at which TRB, the bytes remaining and the completion code.
#[derive(Clone, Copy)]
pub struct Event {
    pub form: u32,
    pub slot: u32,
    pub endpoint: u32,
    pub address: u64,
    pub remaining: u32,
    pub code: u32,
}

pub fn event_of(w: Words) -> Event
    ensures { result ≡ event_of w }
{
    Event {
        form: w.w3 / 0x400 % 64,
        slot: w.w3 / 0x100_0000 % 256,
        endpoint: w.w3 / 0x1_0000 % 32,
        address: u64::from(w.w0) + u64::from(w.w1) * 0x1_0000_0000,
        remaining: w.w2 % 0x100_0000,
        code: w.w2 / 0x100_0000 % 256,
    }
}
