// What a request asks for, case by case, and the record that is kept of it.
#![tactic(auto)]

ghost use Rattle.std.specs.Prelude.{◌≡◌, ◌+◌, ◌*◌, ◌^◌, eqb};
ghost use Rattle.base.specs.First.{pick};
ghost use Rattle.dock.specs.Requests.{kind_of, incoming_of, setup_of, given_of, required, buffer_of, record_for};

use dock::{Request, What};
use records::{Kind, Record, State};

pub fn kind_of(what: What) -> Kind
    ensures { result ≡ kind_of what }
{
    match what {
        What::Control { .. } => Kind::Control,
        What::Bulk { .. } => Kind::Bulk,
        What::Interrupt { .. } => Kind::Interrupt,
        What::Isoch { .. } => Kind::Isoch,
    }
}

// "request type (bit 7 is in)."
pub fn incoming_of(what: What) -> bool
    ensures { result ≡ incoming_of what }
{
    match what {
        What::Control { request_type, .. } => request_type / 128 % 2 == 1,
        What::Bulk { incoming } | What::Interrupt { incoming } | What::Isoch { incoming } =>
            incoming,
    }
}

// The setup's fields in one number, low byte first.
fn setup_number(request_type: u8, request: u8, value: u16, index: u16) -> u64
    ensures { result ≡ request_type + request * 2 ^ 8 + value * 2 ^ 16 + index * 2 ^ 32 }
{
    let bytes = request_type as u64 + request as u64 * 0x100;
    bytes + value as u64 * 0x1_0000 + index as u64 * 0x1_0000_0000
}

pub fn setup_of(what: What) -> u64
    ensures { result ≡ setup_of what }
{
    match what {
        What::Control {
            request_type,
            request,
            value,
            index,
        } => setup_number(request_type, request, value, index),
        What::Bulk { .. } | What::Interrupt { .. } | What::Isoch { .. } => 0,
    }
}

// "With a data length of 0 the address stored is 0."
pub fn buffer_of(request: Request) -> u64
    ensures { result ≡ buffer_of request }
{
    if request.length == 0 {
        0
    } else {
        request.address
    }
}

// The packets given with a request, of so many lengths.
pub fn given_of(what: What, count: usize) -> u64
    ensures { result ≡ given_of what count }
{
    match what {
        What::Control { .. } | What::Bulk { .. } | What::Interrupt { .. } => 0,
        What::Isoch { .. } => count as u64,
    }
}

// Setup, data where there is any, and status.
fn stages(length: u64) -> u64
    ensures { result ≡ pick (eqb length 0) 2 3 }
{
    if length == 0 { 2 } else { 3 }
}

// The TRBs that a request takes. "No packets means one packet of length 0."
pub fn required_of(request: Request, count: usize) -> u64
    ensures { result ≡ required request count }
{
    match request.what {
        What::Control { .. } => stages(request.length),
        What::Bulk { .. } | What::Interrupt { .. } => 1,
        What::Isoch { .. } => count.max(1) as u64,
    }
}

// The record that is kept of a request under an id, its first TRB at a place.
pub fn record_for(request: Request, count: usize, id: u64, place: usize) -> Record
    ensures { result ≡ record_for request count id place }
{
    let what = request.what;
    Record {
        id,
        kind: u64::from(kind_of(what)),
        incoming: incoming_of(what),
        state: u64::from(State::InFlight),
        cancelled: false,
        address: buffer_of(request),
        length: request.length,
        setup: setup_of(what),
        place: place as u64,
        count: required_of(request, count),
        given: given_of(what, count),
        recorded: 0,
    }
}
