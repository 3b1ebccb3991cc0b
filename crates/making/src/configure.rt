// Configuring a periodic endpoint.
ghost use Rattle.std.specs.Prelude.{◌≡◌};
ghost use Rattle.dock.specs.State.{with_periodic};
ghost use Rattle.dock.specs.Configure.{configure};

use dock::{After, Endpoint, Periodic};

// The endpoint with other settings.
fn with_periodic(e: Endpoint, p: Periodic) -> Endpoint
    ensures { result ≡ with_periodic e p }
{
    let mut next = e;
    next.periodic = p;
    next
}

#[tactic(auto, unfolding(dock::specs::Configure::configure))]
pub fn configure_periodic(e: Endpoint, packet: u16, burst: u8, interval: u8) -> After<()>
    ensures { result ≡ configure e packet burst interval }
{
    let checked = checks::plain_no(e);
    if let Err(refusal) = checked {
        return After {
            answer: Err(refusal),
            endpoint: e,
        };
    }
    let settings = Periodic {
        packet,
        burst,
        interval: interval.max(1),
        frame: e.periodic.frame,
    };
    After {
        answer: Ok(()),
        endpoint: with_periodic(e, settings),
    }
}
