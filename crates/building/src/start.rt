// "The start of a submission stores no TRB; it takes id, record and count, and writes the record's packets anew, unmarked."
ghost use Rattle.std.specs.Prelude.{◌≡◌};
ghost use Rattle.dock.specs.Start.{start};

use dock::{After, Endpoint, Request};

pub fn start_request(
    e: Endpoint,
    records: &mut [u64],
    packets: &mut [u64],
    request: Request,
    lengths: &[u64],
) -> After<()>
    ensures { (result, records.new, packets.new) ≡ start e records.old packets.old request lengths.now }
{
    let checked = admission::start_no(e, records, packets.len(), request, lengths);
    if let Err(refusal) = checked {
        return After {
            answer: Err(refusal),
            endpoint: e,
        };
    }
    After {
        answer: Ok(()),
        endpoint: starting::begin(e, records, packets, request, lengths),
    }
}
