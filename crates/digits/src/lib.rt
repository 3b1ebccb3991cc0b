// A digit of a number, and whether a number with one digit more fits.
#![tactic(auto)]

ghost use Rattle.std.specs.Prelude.{◌≡◌, ◌<◌, IfSome};
ghost use Rattle.digits.specs.Digits.{digit_of, fits};

// What a byte is worth as a digit, where it is one.
#[tactic(auto, unfolding(crate::specs::Digits::digit_of))]
pub fn digit_of(b: u8) -> Option<u64>
    ensures { (result ≡ digit_of b) × IfSome result (λ digit. digit < 16) }
{
    match b {
        b'0'..=b'9' => Some(u64::from(b - b'0')),
        b'A'..=b'F' => Some(u64::from(b - b'A') + 10),
        b'a'..=b'f' => Some(u64::from(b - b'a') + 10),
        _ => None,
    }
}

// A digit of the base, with which the number is not above the largest.
pub fn fits(value: u64, base: u64, digit: u64, most: u64) -> bool
    ensures { result ≡ fits value base digit most }
{
    digit < base && digit <= most && value <= (most - digit) / base
}
