// What one store changes of the endpoint, and its answer: functions on values, for the stores one by one and for the whole submission.
#![tactic(auto)]

ghost use Rattle.std.specs.Prelude.{◌≡◌, ◌<◌, ◌≤◌};
ghost use Rattle.sizes.specs.Sizes.{packet_count};
ghost use Rattle.dock.specs.State.{idle, with_store};
ghost use Rattle.dock.specs.Trbs.{frame_after};
ghost use Rattle.dock.specs.NextStore.{with_stored, frame_on, manner_of};
ghost use Rattle.steps.specs.Steps.{run_with, advanced_by, concluded_by};

use dock::{After, Endpoint, Periodic, Stored, Work};
use records::{Kind, Record};
use ring::{Manner, Position};

// No submission under way.
pub fn idle() -> Work
    ensures { result ≡ idle }
{
    Work {
        busy: false,
        number: 0,
        stored: 0,
        address: 0,
        place: 0,
        cycle: false,
    }
}

// What a store changes of the endpoint.
pub fn with_store(e: Endpoint, p: Position, frame: u16, w: Work) -> Endpoint
    ensures { result ≡ with_store e p frame w }
{
    Endpoint {
        at: p,
        periodic: Periodic {
            frame,
            ..e.periodic
        },
        work: w,
        ..e
    }
}

pub fn with_stored(w: Work, stored: usize, address: u64) -> Work
    ensures { result ≡ with_stored w stored address }
{
    Work {
        busy: true,
        stored,
        address,
        ..w
    }
}

// "the next frame number moves by the interval modulo 2,048 at each packet's store." "interval at least 1 (0 is taken as 1)."
pub fn frame_after(frame: u16, interval: u8) -> u16
    ensures { result ≡ frame_after frame interval }
{
    ((frame as u32 + interval.max(1) as u32) % sizes::FRAMES) as u16
}

fn frame_on(e: Endpoint, v: Record) -> u16
    ensures { result ≡ frame_on e v }
{
    if v.has_kind(Kind::Isoch) {
        frame_after(e.periodic.frame, e.periodic.interval)
    } else {
        e.periodic.frame
    }
}

// The running address, which an ISO packet moves on by its length, modulo 2^64.
fn run_on(e: Endpoint, v: Record, size: u32) -> u64
    ensures { result ≡ run_with e v size }
{
    if v.has_kind(Kind::Isoch) {
        e.work.address.wrapping_add(size as u64)
    } else {
        e.work.address
    }
}

// The first TRB of a deferred TD goes out with the opposite cycle, the rest as usual.
pub fn manner_of(e: Endpoint, v: Record) -> Manner
    ensures { result ≡ manner_of e v }
{
    Manner::Onward {
        deferred: checks::is_deferred(v) && e.work.stored == 0,
    }
}

// The endpoint after a TRB's store, which left the producer at p.
#[tactic(auto, unfolding(crate::specs::Steps::advanced_by))]
pub fn advanced(e: Endpoint, p: Position, v: Record, size: u32) -> Endpoint
    requires { e.work.stored ≤ packet_count }
    ensures { result ≡ advanced_by e p v size }
{
    let frame = frame_on(e, v);
    let address = run_on(e, v, size);
    let w = e.work;
    with_store(e, p, frame, with_stored(w, e.work.stored + 1, address))
}

// After the last store nothing is under way.
fn settled(e: Endpoint) -> Endpoint
    ensures { result ≡ with_store e e.at e.periodic.frame idle }
{
    Endpoint { work: idle(), ..e }
}

// The answer of a store that changed a slot and left this endpoint.
#[tactic(auto, unfolding(crate::specs::Steps::concluded_by, dock::specs::NextStore::settled))]
pub fn concluded(after: Endpoint, v: Record, slot: usize) -> After<Stored>
    requires { 0 < after.shape.slots }
    ensures { result ≡ concluded_by after v slot }
{
    if checks::next_of(after, v).is_some() {
        return After {
            answer: Ok(Stored::Slot(slot)),
            endpoint: after,
        };
    }
    After {
        answer: Ok(Stored::Last {
            slot,
            id: v.id,
            bell: after.who.dci as u32,
        }),
        endpoint: settled(after),
    }
}
