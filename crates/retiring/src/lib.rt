// A retire: after a stop every request in flight becomes stopped, and its reclaim answers 7. Document 01, module 6.
#![tactic(auto)]

ghost use Rattle.std.specs.Prelude.{◌≡◌, ◌+◌, ◌-◌, ◌*◌, ◌<◌, length};
ghost use Rattle.sizes.specs.Sizes.{record_count, records_size};
ghost use Rattle.dock.specs.RowOne.{flies};
ghost use Rattle.dock.specs.Retire.{retired_below, retire};
ghost use Rattle.retiring.specs.Steps.{retire_one};

use dock::{After, Endpoint};
use mask::Occupancy;
use records::{STATE_WORD, State};
use sizes::RECORD_COUNT;

// Is the record held, and its request in flight?
pub fn is_flying(records: &[u64], occupancy: Occupancy, r: usize) -> bool
    requires { (length records.now ≡ records_size) × (r < record_count) }
    ensures { result ≡ flies records.now occupancy r }
{
    occupancy.is_held(r) && records::record_at(records, r).has_state(State::InFlight)
}

// One record: a request in flight becomes stopped, and its TRBs leave outstanding, which never goes below 0.
#[tactic(auto, unfolding(crate::specs::Steps::retire_one))]
fn retire_one(records: &mut [u64], occupancy: Occupancy, outstanding: u64, r: usize) -> u64
    requires { (length records.old ≡ records_size) × (r < record_count) }
    ensures { (result, records.new) ≡ retire_one occupancy outstanding records.old r }
{
    if !is_flying(records, occupancy, r) {
        return outstanding;
    }
    let v = records::record_at(records, r);
    records::set_word(records, r, STATE_WORD, u64::from(State::Stopped));
    outstanding.saturating_sub(v.count)
}

// Every record, one after the other.
fn retire_all(records: &mut [u64], occupancy: Occupancy, outstanding: u64) -> u64
    requires { length records.old ≡ records_size }
    ensures { (result, records.new) ≡ retired_below record_count occupancy outstanding records.old }
{
    let mut out = outstanding;
    for r in 0..RECORD_COUNT {
        out = retire_one(records, occupancy, out, r);
    }
    out
}

// Every request in flight becomes stopped.
pub fn retire_all_after_stop(e: Endpoint, records: &mut [u64]) -> After<()>
    ensures { (result, records.new) ≡ retire e records.old }
{
    let checked = checks::record_no(e, records);
    if let Err(refusal) = checked {
        return After {
            answer: Err(refusal),
            endpoint: e,
        };
    }
    let outstanding = retire_all(records, e.account.occupancy, e.account.outstanding);
    let mut next = e;
    next.account.outstanding = outstanding;
    After {
        answer: Ok(()),
        endpoint: next,
    }
}
