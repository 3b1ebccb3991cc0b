// The limits of a dock as tests on numbers: what making and row 1 of "When the dock says no" read. Every function takes any input.
#![tactic(auto)]

ghost use Rattle.std.specs.Prelude.{◌≡◌, ◌*◌, ◌<◌, eqb};
ghost use Rattle.sizes.specs.Sizes.{ring_size};
ghost use Rattle.dock.specs.Limits.{limits_hold};
ghost use Rattle.dock.specs.RowOne.{place_stands};

use dock::{Identity, Shape};

// "What a dock may hold": slots, base, slot id and dci; and document 02's "a transfer ring segment may not cross a 64 KiB address boundary." From the base to
// the next boundary are 4,096 slots at most, and 2^64 is a boundary: so this one test says L at most 4,096 and base + 16L at most 2^64, too. It divides, since
// 16 times a forged L may be no u64.
pub fn limits_hold(shape: Shape, who: Identity) -> bool
    ensures { result ≡ limits_hold shape who }
{
    sizes::FEWEST_SLOTS <= shape.slots
        && shape.base % sizes::ALIGNMENT == 0
        && shape.slots as u64 <= (sizes::BOUNDARY - shape.base % sizes::BOUNDARY) / sizes::TRB_BYTES
        && 1 <= who.dci
        && who.dci <= sizes::MOST_DCI
        && 1 <= who.slot
}

// "place above L-2 except L-1 just before the link's store": the place of the next store.
pub fn stands(slots: usize, place: usize, busy: bool, stored: usize) -> bool
    ensures { result ≡ place_stands slots place busy stored }
{
    place < slots && (place < slots - 1 || busy && 0 < stored)
}

// A table of four words a slot has its size: the ring, the finished table.
pub fn is_sized(words: usize, slots: usize) -> bool
    ensures { result ≡ eqb words (ring_size slots) }
{
    words % 4 == 0 && words / 4 == slots
}
