// Making a ring: "Making zeroes the ring, empties all tables".
ghost use Rattle.std.specs.Prelude.{◌≡◌};
ghost use Rattle.dock.specs.State.{fresh, blank};
ghost use Rattle.dock.specs.Refusals.{verdict};
ghost use Rattle.dock.specs.Make.{sized, make_no, make};

use dock::{Account, After, Endpoint, Flags, Identity, Periodic, Refusal, Shape, refuse};
use mask::Occupancy;
use ring::Position;

// The tables of a ring of so many slots have their sizes.
#[tactic(auto, unfolding(dock::specs::Make::sized))]
fn are_sized(slots: usize, ring: usize, finished: usize, records: usize, packets: usize) -> bool
    ensures { result ≡ sized slots ring finished records packets }
{
    limits::is_sized(ring, slots)
        && limits::is_sized(finished, slots)
        && records == sizes::RECORDS_SIZE
        && packets == sizes::PACKETS_SIZE
}

// "Making knows only 13, then 1."
#[tactic(auto, unfolding(dock::specs::Make::make_no, dock::specs::Make::make_tests))]
fn make_no(
    ring: usize,
    finished: usize,
    records: usize,
    packets: usize,
    shape: Shape,
    who: Identity,
) -> Result<(), Refusal>
    ensures { result ≡ verdict (make_no ring finished records packets shape who) }
{
    refuse(!limits::limits_hold(shape, who), Refusal::OutsideLimits)?;
    refuse(
        !are_sized(shape.slots, ring, finished, records, packets),
        Refusal::Unfit,
    )
}

// What a making that was refused gives back.
pub fn blank() -> Endpoint
    ensures { result ≡ blank }
{
    Endpoint {
        at: Position {
            place: 0,
            cycle: false,
        },
        shape: Shape { slots: 0, base: 0 },
        who: Identity {
            slot: 0,
            dci: 0,
            mask: 0,
        },
        periodic: Periodic {
            packet: 0,
            burst: 0,
            interval: 0,
            frame: 0,
        },
        account: Account {
            next: 0,
            occupancy: Occupancy::none(),
            outstanding: 0,
        },
        flags: Flags {
            halted: false,
            reset: false,
        },
        work: steps::idle(),
    }
}

// "place 0, cycle 1, next id 1, next frame, max packet and burst 0, interval 1, no flag set."
fn fresh(shape: Shape, who: Identity) -> Endpoint
    ensures { result ≡ fresh shape who }
{
    Endpoint {
        at: Position {
            place: 0,
            cycle: true,
        },
        shape,
        who,
        periodic: Periodic {
            packet: 0,
            burst: 0,
            interval: 1,
            frame: 0,
        },
        account: Account {
            next: 1,
            occupancy: Occupancy::none(),
            outstanding: 0,
        },
        flags: Flags {
            halted: false,
            reset: false,
        },
        work: steps::idle(),
    }
}

pub fn make(
    ring: &mut [u32],
    finished: &mut [u32],
    records: &mut [u64],
    packets: &mut [u64],
    shape: Shape,
    who: Identity,
) -> After<()>
    ensures { (result, ring.new, finished.new, records.new, packets.new) ≡ make ring.old finished.old records.old packets.old shape who }
{
    let checked = make_no(
        ring.len(),
        finished.len(),
        records.len(),
        packets.len(),
        shape,
        who,
    );
    if let Err(refusal) = checked {
        return After {
            answer: Err(refusal),
            endpoint: blank(),
        };
    }
    ring.fill(0);
    finished.fill(0);
    records.fill(0);
    packets.fill(0);
    After {
        answer: Ok(()),
        endpoint: fresh(shape, who),
    }
}
