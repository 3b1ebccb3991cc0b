// The whole submission, proved equal to the start and its stores in order. Each table is touched once: the tests read, then the record is written, then
// each packet's length is read, written to its record and stored in its TRB.
ghost use Rattle.std.specs.Prelude.{◌≡◌};
ghost use Rattle.dock.specs.Refusals.{verdict};
ghost use Rattle.dock.specs.Submit.{submit_no, submit};

use dock::{After, Endpoint, Refusal, Request, Submitted, refuse};

// The start is refused also where the ring or the finished table has a wrong size: then no store could follow.
#[tactic(auto, unfolding(dock::specs::Submit::submit_no, dock::specs::Submit::submit_tests, dock::specs::Start::start_no))]
fn submit_no(
    e: Endpoint,
    ring: usize,
    finished: usize,
    records: &[u64],
    packets: usize,
    request: Request,
    lengths: &[u64],
) -> Result<(), Refusal>
    ensures { result ≡ verdict (submit_no e ring finished records.now packets request lengths.now) }
{
    refuse(!limits::is_sized(ring, e.shape.slots), Refusal::Unfit)?;
    refuse(!limits::is_sized(finished, e.shape.slots), Refusal::Unfit)?;
    admission::start_no(e, records, packets, request, lengths)
}

pub fn submit_request(
    e: Endpoint,
    ring: &mut [u32],
    finished: &mut [u32],
    records: &mut [u64],
    packets: &mut [u64],
    request: Request,
    lengths: &[u64],
) -> After<Submitted>
    ensures { (result, ring.new, finished.new, records.new, packets.new) ≡ submit e ring.old finished.old records.old packets.old request lengths.now }
{
    let checked = submit_no(
        e,
        ring.len(),
        finished.len(),
        records,
        packets.len(),
        request,
        lengths,
    );
    if let Err(refusal) = checked {
        return After {
            answer: Err(refusal),
            endpoint: e,
        };
    }
    let begun = starting::take(e, records, request, lengths.len());
    let at = begun.endpoint;
    let v = begun.kept;
    sending::send(at, v, ring, finished, packets, lengths)
}
