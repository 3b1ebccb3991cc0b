// The words of the commands that stop an endpoint, reset it and set it going again, and the pointer where it goes on. Document 01, module 6.
//
// A retire follows a stop (crate `retiring`), a reset is a begin and an end (crate `resetting`). Sending commands and ringing the bell stay with the
// dock.
#![tactic(auto)]

ghost use Rattle.std.specs.Prelude.{◌≡◌, ◌+◌, ◌-◌, ◌*◌, ◌^◌, ◌<◌};
ghost use Rattle.sizes.specs.Sizes.{trb_bytes};
ghost use Rattle.dock.specs.Commands.{reset_words, dequeue_words, stop, resume, pointer};

use dock::{Endpoint, Refusal};
use ring::Pointer;
use trb::{Trb, Words};

// Reset Endpoint, of this endpoint.
pub fn reset_words(e: Endpoint) -> Words
    ensures { result ≡ reset_words e }
{
    let command = Trb::ResetEndpoint {
        endpoint: e.who.dci,
        slot: e.who.slot,
    };
    encoding::words_of(command, false)
}

// Set TR Dequeue: the controller goes on where the producer stands.
pub fn dequeue_words(e: Endpoint) -> Words
    requires { e.shape.base + trb_bytes * e.at.place < 2 ^ 64 }
    ensures { result ≡ dequeue_words e }
{
    let command = Trb::SetDequeue {
        address: ring::trb_bus_addr(e.shape.base, e.at.place),
        state: e.at.cycle,
        endpoint: e.who.dci,
        slot: e.who.slot,
    };
    encoding::words_of(command, false)
}

// The words of the command that stops the endpoint.
pub fn stop_words(e: Endpoint) -> Result<Words, Refusal>
    ensures { result ≡ stop e }
{
    checks::plain_no(e)?;
    let command = Trb::StopEndpoint {
        endpoint: e.who.dci,
        slot: e.who.slot,
    };
    Ok(encoding::words_of(command, false))
}

// The words of the command that sets it going again, at the producer's place.
pub fn resume_words(e: Endpoint) -> Result<Words, Refusal>
    ensures { result ≡ resume e }
{
    checks::plain_no(e)?;
    Ok(dequeue_words(e))
}

// Where the producer stands.
pub fn enqueue_pointer(e: Endpoint) -> Result<Pointer, Refusal>
    ensures { result ≡ pointer e }
{
    checks::plain_no(e)?;
    let at = e.at;
    Ok(ring::enqueue_pointer(e.shape.base, at))
}
