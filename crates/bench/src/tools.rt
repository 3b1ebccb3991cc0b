// What a drive does besides the calls: it forges words, and steps the controller.
ghost use Rattle.std.specs.Prelude.{◌≡◌};
ghost use Rattle.bench.specs.Bench.{with_next, forged};
ghost use Rattle.bench.specs.Walk.{stride, walk, walked};
ghost use Rattle.page.specs.Lent.{shown, loan};

use controller::{Consumer, Step};
use dock::Endpoint;
use page::Page;

// The endpoint with another next id.
pub fn with_next(mut e: Endpoint, next: u64) -> Endpoint
    ensures { result ≡ with_next e next }
{
    e.account.next = next;
    e
}

// A word of a table is forged; false where the table has no such word.
#[tactic(auto, unfolding(crate::specs::Bench::forged))]
pub fn forge<T: Copy>(table: &mut [T], index: u64, word: T) -> bool
    ensures { (result, table.new) ≡ forged table.old index word }
{
    let i = index as usize;
    if i < table.len() {
        table[i] = word;
        return true;
    }
    false
}

// One step: where the controller stands behind it; nothing where it did nothing.
#[tactic(auto, unfolding(crate::specs::Walk::stride))]
fn stride(ring: &[u32], c: Consumer, page: &mut Page) -> Option<Consumer>
    ensures leaves { (result, shown page.new) ≡ stride ring.now c (shown page.old) }
    ensures same_bytes { loan page.new ≡ loan page.old }
{
    if ring.len() / 4 <= c.slot {
        return None;
    }
    let s = controller::take_step(ring, c);
    match s.step {
        Step::Nothing => None,
        Step::Linked => Some(s.after),
        Step::Took(w) => {
            phrases::put_slot(page, b"took", c.slot, w);
            Some(s.after)
        }
    }
}

// So many steps, fewer where one does nothing: where the controller then stands.
#[tactic(auto, unfolding(crate::specs::Walk::walk))]
fn walk(most: u64, ring: &[u32], c: Consumer, page: &mut Page) -> Consumer
    ensures leaves { (result, shown page.new) ≡ walk most ring.now c (shown page.old) }
    ensures same_bytes { loan page.new ≡ loan page.old }
{
    let mut stands = c;
    for _ in 0..most {
        let Some(after) = stride(ring, stands, page) else {
            return stands;
        };
        stands = after;
    }
    stands
}

// The controller takes so many steps, and stops sooner where a step does nothing.
#[tactic(auto, unfolding(crate::specs::Walk::walked))]
pub fn walk_on(most: u64, ring: &[u32], c: Consumer, page: &mut Page) -> Consumer
    ensures leaves { (result, shown page.new) ≡ walked most ring.now c (shown page.old) }
    ensures same_bytes { loan page.new ≡ loan page.old }
{
    let stands = walk(most, ring, c, page);
    answers::put_stands(page, stands);
    stands
}
