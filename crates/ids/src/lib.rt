// The first free request id, and the lowest held record with an id, over the words of 64 records and the occupancy, which says those that are held.
#![tactic(auto)]

ghost use Rattle.std.specs.Prelude.{◌≡◌, ◌*◌, ◌<◌, length};
ghost use Rattle.ids.specs.Order.{after_id};
ghost use Rattle.sizes.specs.Sizes.{record_count, records_size};
ghost use Rattle.mask.specs.Occupancy.{held};
ghost use Rattle.ids.specs.Free.{held_by, id_at, free_in, taken};
ghost use Rattle.ids.specs.Lookup.{find_in};

use mask::Occupancy;

// The id that is taken, and the one at which the next search starts.
#[derive(Clone, Copy)]
pub struct Taken {
    pub id: u64,
    pub next: u64,
}

// The id after `id`: 1 comes after the largest, and 0 is never used.
pub fn after(id: u64) -> u64
    ensures { result ≡ after_id id }
{
    id.checked_add(1).unwrap_or(1)
}

// Is the record held, and has it the id?
#[tactic(auto, unfolding(crate::specs::Free::held_by))]
fn has_id(records: &[u64], occupancy: Occupancy, r: usize, id: u64) -> bool
    requires { (length records.now ≡ records_size) × (r < record_count) }
    ensures { result ≡ held_by (held occupancy) (id_at records.now) id r }
{
    occupancy.is_held(r) && records[sizes::RECORD_WORDS * r] == id
}

// The first id from `next` on that no held record has. A record is held that the occupancy says, in flight or stopped.
pub fn free_id(records: &[u64], occupancy: Occupancy, next: u64) -> Taken
    requires { (length records.now ≡ records_size) × (0 < next) }
    ensures { result ≡ taken (free_in records.now occupancy next) }
{
    let mut candidate = next;
    // Document 01 names this form: an outer loop that yields the id by break, and an inner scan that continues it by label.
    let id = 'ids: loop {
        for r in 0..sizes::RECORD_COUNT {
            if has_id(records, occupancy, r, candidate) {
                candidate = after(candidate);
                continue 'ids;
            }
        }
        break candidate;
    };
    Taken {
        id,
        next: after(id),
    }
}

// The held record with the id, the lowest of several.
pub fn find_id(records: &[u64], occupancy: Occupancy, id: u64) -> Option<usize>
    requires { length records.now ≡ records_size }
    ensures { result ≡ find_in records.now occupancy id }
{
    (0..sizes::RECORD_COUNT).find(|&r| has_id(records, occupancy, r, id))
}
