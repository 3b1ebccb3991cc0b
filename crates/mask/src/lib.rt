// Occupancy: which records are held, and which is taken next. It is one 64-bit mask, bit i set while record i is held, and the lowest clear bit is
// taken. Of how many masks it is made is told here only, and where an endpoint is words (`loaded`, `saved`).
#![tactic(auto)]

ghost use Rattle.std.specs.Prelude.{◌≡◌, ◌<◌};
ghost use Rattle.sizes.specs.Sizes.{record_count};
ghost use Rattle.mask.specs.Occupancy.{none, held, lowest, taken, freed};

// The held records.
#[derive(Clone, Copy)]
pub struct Occupancy {
    pub bits: u64,
}

impl Occupancy {
    // No record is held.
    pub fn none() -> Occupancy
        ensures { result ≡ none }
    {
        Occupancy { bits: 0 }
    }

    // Is record i held?
    pub fn is_held(self, i: usize) -> bool
        requires { i < record_count }
        ensures { result ≡ held self i }
    {
        (self.bits >> i) & 1 == 1
    }

    // The record to take next, if there is one: the lowest clear bit, the trailing zeros of the complemented mask.
    pub fn lowest(self) -> Option<usize>
        ensures { result ≡ lowest self }
    {
        let i = (!self.bits).trailing_zeros();
        if i < 64 { Some(i as usize) } else { None }
    }

    // Record i is taken.
    pub fn taken(self, i: usize) -> Occupancy
        requires { i < record_count }
        ensures { result ≡ taken self i }
    {
        Occupancy {
            bits: self.bits | (1 << i),
        }
    }

    // Record i is freed.
    pub fn freed(self, i: usize) -> Occupancy
        requires { i < record_count }
        ensures { result ≡ freed self i }
    {
        Occupancy {
            bits: self.bits & !(1 << i),
        }
    }
}
