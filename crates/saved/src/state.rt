// The endpoint as words.
ghost use Rattle.std.specs.Prelude.{◌≡◌};
ghost use Rattle.loaded.specs.State.{save, moves, kept, Narrow};

use dock::Endpoint;
use loaded::STATE_WORDS;

// The words of an endpoint, in the order in which `loaded` reads them.
#[tactic(auto, unfolding(loaded::specs::State::save))]
fn save(e: Endpoint) -> [u64; STATE_WORDS]
    ensures { result ≡ save e }
{
    let Endpoint {
        at,
        shape,
        who,
        periodic,
        account,
        flags,
        work,
    } = e;
    [
        at.place as u64,
        u64::from(at.cycle),
        shape.slots as u64,
        shape.base,
        u64::from(who.slot),
        u64::from(who.dci),
        who.mask,
        u64::from(periodic.packet),
        u64::from(periodic.burst),
        u64::from(periodic.interval),
        u64::from(periodic.frame),
        account.next,
        account.occupancy.bits,
        account.outstanding,
        u64::from(flags.halted),
        u64::from(flags.reset),
        u64::from(work.busy),
        work.number as u64,
        work.stored as u64,
        work.address,
        work.place as u64,
        u64::from(work.cycle),
    ]
}

// Does an answer of this number change the endpoint? Document 01: rows 0, 7, 8 and 9; the others leave it.
#[tactic(auto, unfolding(loaded::specs::State::moves))]
fn moves(number: u32) -> bool
    ensures { result ≡ moves number }
{
    matches!(number, 0 | 7..=9)
}

// The words after an answer: those of the endpoint afterwards, or as they were.
#[tactic(auto, unfolding(loaded::specs::State::kept))]
pub fn keep(words: &mut [u64; STATE_WORDS], number: u32, e: Endpoint)
    ensures { words.new ≡ kept number words.old e }
{
    if moves(number) {
        *words = save(e);
    }
}

// The types of an endpoint's fields keep them as narrow as their words must be.
fn narrow(e: Endpoint)
    ensures { Narrow e }
{}

// Every endpoint is what its words say: it is saved, and loaded again.
#[tactic(auto, using(loaded::proofs::SavedLaws::save_fits, loaded::proofs::SavedLaws::load_save))]
pub fn round_trip(e: Endpoint) -> Endpoint
    ensures { result ≡ e }
{
    narrow(e);
    loaded::load(&save(e))
}
