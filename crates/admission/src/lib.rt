// The refusals of a submission's start, in order. Every test takes any input: no sum is made before its parts are tested.
#![tactic(auto)]

ghost use Rattle.std.specs.Prelude.{◌≡◌, not, ◌&&◌, ◌||◌, eqb, ltb, length};
ghost use Rattle.mask.specs.Occupancy.{lowest};
ghost use Rattle.sizes.specs.Sizes.{capacity, packet_count, packets_size};
ghost use Rattle.dock.specs.RowOne.{fits_with};
ghost use Rattle.dock.specs.Requests.{required};
ghost use Rattle.dock.specs.Refusals.{verdict};
ghost use Rattle.dock.specs.Start.{crowded, sum_of, some_over, too_long, is_full, beyond, start_no};

use dock::{Endpoint, Refusal, Request, What, refuse};
use mask::Occupancy;

// Row 1: the endpoint, its records and its packets fit.
fn is_unfit(e: Endpoint, records: &[u64], packets: usize) -> bool
    ensures { result ≡ not (fits_with e records.now && eqb packets packets_size) }
{
    !(checks::fits_with(e, records) && packets == sizes::PACKETS_SIZE)
}

// L-2: what a ring of so many slots takes at most.
fn most_of(slots: usize) -> u64
    ensures { result ≡ capacity slots }
{
    slots.saturating_sub(2) as u64
}

// Row 2, capacity: "outstanding + required above L-2".
#[tactic(auto, unfolding(dock::specs::Start::crowded))]
fn is_crowded(e: Endpoint, request: Request, count: usize) -> bool
    ensures { result ≡ crowded e.shape.slots e.account.outstanding (required request count) }
{
    let most = most_of(e.shape.slots);
    let more = requests::required_of(request, count);
    most < more || most - more < e.account.outstanding
}

// Row 3 of an ISO request: "over 64 packets, or sum over buffer", or one packet too long.
fn is_over(size: u64, lengths: &[u64]) -> bool
    ensures { result ≡ (ltb packet_count (length lengths.now) || some_over lengths.now || ltb size (sum_of lengths.now)) }
{
    if sizes::PACKET_COUNT < lengths.len() {
        return true;
    }
    let mut sum: u64 = 0;
    for &n in lengths {
        if sizes::LONGEST < n {
            return true;
        }
        sum += n;
    }
    size < sum
}

// Row 3: "a data length limit above broken, over 64 packets, or sum over buffer".
#[tactic(auto, unfolding(dock::specs::Start::too_long))]
fn is_too_long(request: Request, lengths: &[u64]) -> bool
    ensures { result ≡ too_long request.what request.length lengths.now }
{
    match request.what {
        What::Control { .. } => sizes::LONGEST_CONTROL < request.length,
        What::Bulk { .. } | What::Interrupt { .. } => sizes::LONGEST < request.length,
        What::Isoch { .. } => is_over(request.length, lengths),
    }
}

// Row 4: "all 64 records taken".
fn is_full(occupancy: Occupancy) -> bool
    ensures { result ≡ is_full (lowest occupancy) }
{
    occupancy.lowest().is_none()
}

// Row 5, document 02: "length is above 0 and address + length - 1 exceeds the mask, the sum exact".
#[tactic(auto, unfolding(dock::specs::Start::beyond))]
fn is_beyond(mask: u64, request: Request) -> bool
    ensures { result ≡ beyond mask request.address request.length }
{
    request.length > 0 && (mask < request.address || mask - request.address < request.length - 1)
}

// "Order: 1, 12, then for a submission 2 (reset), 2 (capacity), 3, 4, 5."
#[tactic(auto, unfolding(dock::specs::Start::start_no, dock::specs::Start::start_tests))]
pub fn start_no(
    e: Endpoint,
    records: &[u64],
    packets: usize,
    request: Request,
    lengths: &[u64],
) -> Result<(), Refusal>
    ensures { result ≡ verdict (start_no e records.now packets request lengths.now) }
{
    refuse(is_unfit(e, records, packets), Refusal::Unfit)?;
    refuse(e.work.busy, Refusal::Busy)?;
    refuse(e.flags.reset, Refusal::QueueFull)?;
    refuse(is_crowded(e, request, lengths.len()), Refusal::QueueFull)?;
    refuse(is_too_long(request, lengths), Refusal::TooLong)?;
    refuse(is_full(e.account.occupancy), Refusal::RecordsFull)?;
    refuse(is_beyond(e.who.mask, request), Refusal::OutOfReach)
}
