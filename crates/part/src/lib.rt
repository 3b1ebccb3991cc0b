// A lent part of the ring filled with the four words of a TRB or of an event.
#![tactic(auto)]

ghost use Rattle.std.specs.Prelude.{◌≡◌};
ghost use Rattle.base.specs.Part.{filled};
ghost use Rattle.trb.specs.Layouts.{listed};

use trb::Words;

// Fills a lent part of four words; any other part is left as it is, and the answer is no.
pub fn put_words(part: &mut [u32], w: Words) -> bool
    ensures { (result, part.new) ≡ filled 4 part.old (listed w) }
{
    if part.len() != 4 {
        return false;
    }
    // Word by word: `copy_from_slice` of the four takes 5 instructions in 100 more of a submission.
    part[0] = w.w0;
    part[1] = w.w1;
    part[2] = w.w2;
    part[3] = w.w3;
    true
}
