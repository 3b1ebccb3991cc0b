// The next store of a submission: "each changing one slot only". "The last store answers the id and doorbell word (the dci)."
ghost use Rattle.std.specs.Prelude.{◌≡◌};
ghost use Rattle.dock.specs.NextStore.{store};

use dock::{After, Endpoint, Stored};

pub fn next_store(
    e: Endpoint,
    ring: &mut [u32],
    finished: &mut [u32],
    records: &[u64],
    packets: &[u64],
) -> After<Stored>
    ensures { (result, ring.new, finished.new) ≡ store e ring.old finished.old records.now packets.now }
{
    let checked = storing::store_no(e, ring.len(), finished.len(), records, packets.len());
    if let Err(refusal) = checked {
        return After {
            answer: Err(refusal),
            endpoint: e,
        };
    }
    storing::store_one(e, ring, finished, records, packets)
}
