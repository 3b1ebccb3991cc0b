// The lines that show and forge.
ghost use Rattle.std.specs.Prelude.{◌≡◌};
ghost use Rattle.bench.specs.Bench.{serve_poke, is_tool, serve_slot, serve_tools};
ghost use Rattle.page.specs.Lent.{shown, loan};

use crate::tools;
use dock::Endpoint;
use page::Page;
use values::{Next, Turn, value};
use words::Word;

// `poke`: a word of a table is forged.
#[tactic(auto, unfolding(crate::specs::Bench::serve_poke))]
pub fn serve_poke(
    e: Endpoint,
    ring: &mut [u32],
    finished: &mut [u32],
    records: &mut [u64],
    packets: &mut [u64],
    name: Word,
    values: &[u64],
) -> Turn
    ensures { (result, ring.new, finished.new, records.new, packets.new) ≡ serve_poke e ring.old finished.old records.old packets.old name values.now }
{
    let i = value(values, 0);
    let v = value(values, 1);
    let done = match name {
        Word::Ring => tools::forge(ring, i, values::word(v)),
        Word::Finished => tools::forge(finished, i, values::word(v)),
        Word::Records => tools::forge(records, i, v),
        _ => tools::forge(packets, i, v),
    };
    let next = if done { Next::On } else { Next::Bad };
    Turn { e, next }
}

// What shows and forges.
#[tactic(auto, unfolding(crate::specs::Bench::is_tool))]
pub fn is_tool(w: Word) -> bool
    ensures { result ≡ is_tool w }
{
    matches!(w, Word::Slot | Word::State | Word::NextId | Word::New)
}

// `slot`: a slot as it stands in the ring.
#[tactic(auto, unfolding(crate::specs::Bench::serve_slot))]
fn serve_slot(e: Endpoint, ring: &[u32], index: u64, page: &mut Page) -> Turn
    ensures leaves { (result, shown page.new) ≡ serve_slot e ring.now index (shown page.old) }
    ensures same_bytes { loan page.new ≡ loan page.old }
{
    let slot = index as usize;
    if ring.len() / 4 <= slot {
        return Turn { e, next: Next::Bad };
    }
    let w = controller::slot_words(ring, slot);
    phrases::put_slot(page, b"slot", slot, w);
    Turn { e, next: Next::On }
}

#[tactic(auto, unfolding(crate::specs::Bench::serve_tools))]
pub fn serve_tools(e: Endpoint, ring: &[u32], w: Word, values: &[u64], page: &mut Page) -> Turn
    ensures leaves { (result, shown page.new) ≡ serve_tools e ring.now w values.now (shown page.old) }
    ensures same_bytes { loan page.new ≡ loan page.old }
{
    let first = value(values, 0);
    match w {
        Word::Slot => serve_slot(e, ring, first, page),
        Word::State => {
            answers::put_state(page, e);
            Turn { e, next: Next::On }
        }
        Word::NextId => Turn {
            e: tools::with_next(e, first),
            next: Next::On,
        },
        _ => Turn { e, next: Next::New },
    }
}
