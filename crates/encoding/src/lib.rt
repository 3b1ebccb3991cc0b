// The words of every TRB, and a lent part of the ring filled with them: document 01's "Words of a TRB".
//
// `words_of` makes the four words of any TRB with a given cycle bit, proved equal to its layout (crate `trb`, specs/Layouts.antt), and `encode`
// fills a part of four words with them.
#![tactic(auto)]

ghost use Rattle.std.specs.Prelude.{◌≡◌};
ghost use Rattle.base.specs.Part.{filled};
ghost use Rattle.trb.specs.Layouts.{words_of, listed};

use trb::{Trb, Words};

// The four words of a TRB with this cycle bit.
pub fn words_of(trb: Trb, cycle: bool) -> Words
    ensures { result ≡ words_of trb cycle }
{
    match trb {
        Trb::Normal {
            address,
            length,
            size,
            target,
            short,
            chain,
            interrupt,
        } => Words {
            w0: word::low(address),
            w1: word::high(address),
            w2: word::sized(length, size, target),
            w3: word::normal(cycle, short, chain, interrupt),
        },
        Trb::Setup {
            request_type,
            request,
            value,
            index,
            length,
            transfer,
        } => Words {
            w0: word::request(request_type, request, value),
            w1: word::index(index, length),
            w2: 8,
            w3: word::setup(cycle, transfer),
        },
        Trb::Data {
            address,
            length,
            short,
            incoming,
        } => Words {
            w0: word::low(address),
            w1: word::high(address),
            w2: word::sized(length, 0, 0),
            w3: word::data(cycle, short, incoming),
        },
        Trb::Status {
            interrupt,
            incoming,
        } => Words {
            w0: 0,
            w1: 0,
            w2: 0,
            w3: word::status(cycle, interrupt, incoming),
        },
        Trb::Isoch {
            address,
            length,
            bursts,
            target,
            short,
            chain,
            interrupt,
            block,
            last,
            frame,
            asap,
        } => Words {
            w0: word::low(address),
            w1: word::high(address),
            w2: word::sized(length, bursts, target),
            w3: word::isoch(cycle, short, chain, interrupt, block, last, frame, asap),
        },
        Trb::Link {
            address,
            toggle,
            chain,
        } => Words {
            w0: word::pointer(address, false),
            w1: word::high(address),
            w2: 0,
            w3: word::link(cycle, toggle, chain),
        },
        Trb::ResetEndpoint { endpoint, slot } => Words {
            w0: 0,
            w1: 0,
            w2: 0,
            w3: word::command(cycle, 14, endpoint, slot),
        },
        Trb::StopEndpoint { endpoint, slot } => Words {
            w0: 0,
            w1: 0,
            w2: 0,
            w3: word::command(cycle, 15, endpoint, slot),
        },
        Trb::SetDequeue {
            address,
            state,
            endpoint,
            slot,
        } => Words {
            w0: word::pointer(address, state),
            w1: word::high(address),
            w2: 0,
            w3: word::command(cycle, 16, endpoint, slot),
        },
    }
}

// Fills a lent part of four words with a TRB; any other part is left as it is, and the answer is no.
pub fn encode(part: &mut [u32], trb: Trb, cycle: bool) -> bool
    ensures { (result, part.new) ≡ filled 4 part.old (listed (words_of trb cycle)) }
{
    part::put_words(part, words_of(trb, cycle))
}
