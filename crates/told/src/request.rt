// A request as words.
ghost use Rattle.std.specs.Prelude.{◌≡◌, true, Ok, Err, Some, None};
ghost use Rattle.base.specs.First.{pick};
ghost use Rattle.dock.specs.declared.Refusal.TheVariants.{Unfit};
ghost use Rattle.told.specs.Request.{is_setup, is_request, setup_of, what_of, request_of, parsed};

use dock::{Refusal, Request, What};

// The words of a request: kind, direction, request type, request, value, index, address, length.
pub const REQUEST_WORDS: usize = 8;

// How many kinds there are: 0 control, 1 bulk, 2 interrupt, 3 isochronous.
pub const KINDS: u64 = 4;

// The setup that the words of a control request say, where they fit its fields: a byte, a byte, two, and two.
fn setup_of(words: &[u64; REQUEST_WORDS]) -> Option<What>
    ensures { result ≡ pick (is_setup words.now) (Some (setup_of words.now)) None }
{
    Some(What::Control {
        request_type: u8::try_from(words[2]).ok()?,
        request: u8::try_from(words[3]).ok()?,
        value: u16::try_from(words[4]).ok()?,
        index: u16::try_from(words[5]).ok()?,
    })
}

// What the words ask for: the first is one of the four kinds, and a control request's setup fits.
#[tactic(auto, unfolding(crate::specs::Request::what_of, crate::specs::Request::is_request))]
fn what_of(words: &[u64; REQUEST_WORDS]) -> Result<What, Refusal>
    ensures { result ≡ pick (is_request words.now) (Ok (what_of words.now)) (Err Unfit) }
{
    let incoming = words[1] != 0;
    match words[0] {
        0 => setup_of(words).ok_or(Refusal::Unfit),
        1 => Ok(What::Bulk { incoming }),
        2 => Ok(What::Interrupt { incoming }),
        3 => Ok(What::Isoch { incoming }),
        _ => Err(Refusal::Unfit),
    }
}

// The request that the words say, where they are a request's.
#[tactic(auto, unfolding(crate::specs::Request::parsed, crate::specs::Request::is_request))]
pub fn parse(words: &[u64]) -> Result<Request, Refusal>
    ensures { result ≡ parsed words.now }
{
    let words = words.as_array().ok_or(Refusal::Unfit)?;
    Ok(Request {
        what: what_of(words)?,
        address: words[6],
        length: words[7],
    })
}

// The request that the words say. Words that are none of a request are the caller's to refuse.
#[tactic(auto, unfolding(crate::specs::Request::parsed))]
pub fn request_of(words: &[u64]) -> Request
    requires { is_request words.now ≡ true }
    ensures { result ≡ request_of words.now }
{
    parse(words).unwrap()
}

// Do the words of a setup fit its fields: a byte, a byte, two, and two?
fn is_setup(words: &[u64; REQUEST_WORDS]) -> bool
    ensures { result ≡ is_setup words.now }
{
    u8::try_from(words[2]).is_ok()
        && u8::try_from(words[3]).is_ok()
        && u16::try_from(words[4]).is_ok()
        && u16::try_from(words[5]).is_ok()
}

// Are they the words of a request: eight, of which the first is one of the four kinds, and for a control request those of a setup?
#[tactic(auto, unfolding(crate::specs::Request::is_request))]
pub fn is_request(words: &[u64]) -> bool
    ensures { result ≡ is_request words.now }
{
    let Some(words) = words.as_array() else {
        return false;
    };
    match words[0] {
        0 => is_setup(words),
        kind => kind < KINDS,
    }
}
