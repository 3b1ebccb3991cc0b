// A reset is a begin, which gives the words of two commands, and an end, which is told whether they worked. Document 01, "What must change shape".
#![tactic(auto)]

ghost use Rattle.std.specs.Prelude.{◌≡◌, ◌+◌, ◌-◌, ◌*◌, ◌<◌, ◌&&◌, length};
ghost use Rattle.sizes.specs.Sizes.{record_count, records_size};
ghost use Rattle.ids.specs.Free.{any};
ghost use Rattle.dock.specs.RowOne.{flies};
ghost use Rattle.dock.specs.Refusals.{verdict};
ghost use Rattle.dock.specs.Reset.{begin_no, begin_reset, end_no, end_reset};
ghost use Rattle.resetting.specs.Steps.{occupied_by};

use dock::{After, Endpoint, Flags, Refusal, ResetCommands, refuse};
use mask::Occupancy;
use sizes::RECORD_COUNT;

// Is some request in flight?
fn some_flying(records: &[u64], occupancy: Occupancy) -> bool
    requires { length records.now ≡ records_size }
    ensures { result ≡ any record_count (flies records.now occupancy) }
{
    (0..RECORD_COUNT).any(|r| retiring::is_flying(records, occupancy, r))
}

// Are there requests in flight, or TRBs outstanding?
#[tactic(auto, unfolding(crate::specs::Steps::occupied_by))]
fn is_occupied(records: &[u64], occupancy: Occupancy, outstanding: u64) -> bool
    requires { length records.now ≡ records_size }
    ensures { result ≡ occupied_by records.now occupancy outstanding }
{
    some_flying(records, occupancy) || outstanding != 0
}

// The refusals of the begin of a reset.
#[tactic(auto, unfolding(dock::specs::Reset::begin_no, dock::specs::Reset::begin_tests, dock::specs::Reset::occupied, crate::specs::Steps::occupied_by))]
fn begin_no(e: Endpoint, records: &[u64]) -> Result<(), Refusal>
    ensures { result ≡ verdict (begin_no e records.now) }
{
    refuse(!checks::fits_with(e, records), Refusal::Unfit)?;
    refuse(e.work.busy, Refusal::Busy)?;
    refuse(
        is_occupied(records, e.account.occupancy, e.account.outstanding),
        Refusal::QueueFull,
    )?;
    refuse(e.flags.halted && e.flags.reset, Refusal::QueueFull)
}

// Begins a reset: nothing to do where nothing is halted, else the words of two commands.
pub fn begin_reset(e: Endpoint, records: &[u64]) -> After<Option<ResetCommands>>
    ensures { result ≡ begin_reset e records.now }
{
    let checked = begin_no(e, records);
    if let Err(refusal) = checked {
        return After {
            answer: Err(refusal),
            endpoint: e,
        };
    }
    if !e.flags.halted {
        return After {
            answer: Ok(None),
            endpoint: e,
        };
    }
    let reset = stopping::reset_words(e);
    let dequeue = stopping::dequeue_words(e);
    let flags = Flags {
        halted: true,
        reset: true,
    };
    let mut next = e;
    next.flags = flags;
    After {
        answer: Ok(Some(ResetCommands { reset, dequeue })),
        endpoint: next,
    }
}

// The refusals of the end of a reset.
#[tactic(auto, unfolding(dock::specs::Reset::end_no, dock::specs::Reset::end_tests))]
fn end_no(e: Endpoint) -> Result<(), Refusal>
    ensures { result ≡ verdict (end_no e) }
{
    refuse(!checks::fits(e), Refusal::Unfit)?;
    refuse(e.work.busy, Refusal::Busy)?;
    refuse(!e.flags.reset, Refusal::NotUnderWay)
}

// Ends a reset, told whether its commands worked.
pub fn end_reset(e: Endpoint, worked: bool) -> After<()>
    ensures { result ≡ end_reset e worked }
{
    let checked = end_no(e);
    if let Err(refusal) = checked {
        return After {
            answer: Err(refusal),
            endpoint: e,
        };
    }
    let flags = Flags {
        halted: e.flags.halted && !worked,
        reset: false,
    };
    let mut next = e;
    next.flags = flags;
    After {
        answer: Ok(()),
        endpoint: next,
    }
}
