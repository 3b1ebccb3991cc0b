// What an admitted submission takes and writes: id, record and count, and the record's packets anew.
//
// `take` and `begin` ask what the tests of `admission` showed (`Admitted`); the calls of the crate `building` make them behind these tests.
#![tactic(auto)]

ghost use Rattle.std.specs.Prelude.{◌≡◌, ◌+◌, ◌*◌, ◌^◌, ◌≤◌, ◌<◌, length};
ghost use Rattle.std.proofs.Math.Seq.{paste};
ghost use Rattle.sizes.specs.Sizes.{most_slots, capacity, record_count, records_size, packet_count};
ghost use Rattle.mask.specs.Occupancy.{lowest};
ghost use Rattle.dock.specs.Requests.{given_of, required};
ghost use Rattle.dock.specs.Start.{number_from, at_least_one, write_packets};
ghost use Rattle.starting.specs.Taken.{started_by, taken_with, begun_with};
ghost use Rattle.admission.specs.Admitted.{Admitted};

use dock::{Account, Endpoint, Request, What, Work};
use mask::Occupancy;
use records::Record;

// "the lowest clear bit is taken."
#[tactic(auto, using(admission::proofs::StartLaws::found_within))]
fn record_taken(occupancy: Occupancy) -> usize
    ensures { (result ≡ number_from (lowest occupancy)) × (result < record_count) }
{
    occupancy.lowest().unwrap_or(0)
}

// The lengths, one behind the other, from a word on. A loop, since `copy_from_slice` of a length known at run time needs `memmove`, which the archive for
// C asks of nobody else.
fn copy_lengths(packets: &mut [u64], start: usize, lengths: &[u64])
    requires { start + length lengths.now ≤ length packets.old }
    ensures { packets.new ≡ paste packets.old start lengths.now (length lengths.now) }
{
    for (i, &n) in lengths.iter().enumerate() {
        packets[start + i] = n;
    }
}

// "No packets means one packet of length 0."
fn write_lengths(packets: &mut [u64], number: usize, lengths: &[u64])
    requires { (packet_count * number + packet_count ≤ length packets.old) × (length lengths.now ≤ packet_count) }
    ensures { packets.new ≡ paste packets.old (packet_count * number) (at_least_one lengths.now) (length (at_least_one lengths.now)) }
{
    let start = sizes::PACKET_COUNT * number;
    if lengths.is_empty() {
        packets[start] = 0;
    } else {
        copy_lengths(packets, start, lengths);
    }
}

// "writes the record's packets anew, unmarked." Only an ISO request has packets.
#[tactic(auto, unfolding(dock::specs::Start::write_packets))]
fn write_packets(packets: &mut [u64], number: usize, what: What, lengths: &[u64])
    requires { (packet_count * number + packet_count ≤ length packets.old) × (given_of what (length lengths.now) ≤ packet_count) }
    ensures { packets.new ≡ write_packets packets.old number what lengths.now }
{
    match what {
        What::Control { .. } | What::Bulk { .. } | What::Interrupt { .. } => {}
        What::Isoch { .. } => write_lengths(packets, number, lengths),
    }
}

// The endpoint with the id, the record and the count taken, and the submission under way.
#[tactic(auto, unfolding(crate::specs::Taken::started_by))]
fn started(e: Endpoint, next: u64, number: usize, request: Request, count: usize) -> Endpoint
    requires { (number < record_count) × (e.account.outstanding + required request count < 2 ^ 64) }
    ensures { result ≡ started_by e next number request count }
{
    Endpoint {
        account: Account {
            next,
            occupancy: e.account.occupancy.taken(number),
            outstanding: e.account.outstanding + requests::required_of(request, count),
        },
        work: Work {
            busy: true,
            number,
            stored: 0,
            address: requests::buffer_of(request),
            place: e.at.place,
            cycle: e.at.cycle,
        },
        ..e
    }
}

// What an admitted submission takes: the endpoint with it under way, and the record that is kept of it.
#[derive(Clone, Copy)]
pub struct Begun {
    pub endpoint: Endpoint,
    pub kept: Record,
}

// The id, the record and the count.
#[tactic(auto, unfolding(crate::specs::Taken::taken_with))]
pub fn take(e: Endpoint, records: &mut [u64], request: Request, count: usize) -> Begun
    requires { (length records.old ≡ records_size) × (0 < e.account.next) × (e.account.outstanding + required request count ≤ capacity most_slots) }
    ensures { (result, records.new) ≡ taken_with e records.old request count }
{
    let number = record_taken(e.account.occupancy);
    let taken = ids::free_id(records, e.account.occupancy, e.account.next);
    let v = requests::record_for(request, count, taken.id, e.at.place);
    records::put_record(records, number, v);
    Begun {
        endpoint: started(e, taken.next, number, request, count),
        kept: v,
    }
}

// All that an admitted submission takes and writes.
pub fn begin(
    e: Endpoint,
    records: &mut [u64],
    packets: &mut [u64],
    request: Request,
    lengths: &[u64],
) -> Endpoint
    requires { Admitted e (length records.old) (length packets.old) request (length lengths.now) }
    ensures { (result, records.new, packets.new) ≡ begun_with e records.old packets.old request lengths.now }
{
    let begun = take(e, records, request, lengths.len());
    let number = record_taken(e.account.occupancy);
    write_packets(packets, number, request.what, lengths);
    begun.endpoint
}
