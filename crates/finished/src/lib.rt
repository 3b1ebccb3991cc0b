// The finished table: one place for each slot of the ring, empty or one event. Four words a place; a place whose fourth word is 0 is empty, which
// an event's never is, for its type stands there. Reading leaves it.
#![tactic(auto)]

ghost use Rattle.std.specs.Prelude.{◌≡◌, ◌+◌, ◌*◌, ◌≤◌, length};
ghost use Rattle.finished.specs.Finished.{finished_at, clear_place, fill_place};
ghost use Rattle.trb.specs.Layouts.{put_words};

use trb::Words;

pub fn get_finished(finished: &[u32], place: usize) -> Option<Words>
    requires { 4 * place + 4 ≤ length finished.now }
    ensures { result ≡ finished_at finished.now place }
{
    let start = 4 * place;
    let last = finished[start + 3];
    if last == 0 {
        return None;
    }
    Some(Words {
        w0: finished[start],
        w1: finished[start + 1],
        w2: finished[start + 2],
        w3: last,
    })
}

// Four words into a place.
fn put_place(finished: &mut [u32], place: usize, w: Words)
    requires { 4 * place + 4 ≤ length finished.old }
    ensures { finished.new ≡ put_words finished.old place w }
{
    let start = 4 * place;
    part::put_words(&mut finished[start..start + 4], w);
}

// The place becomes empty, and its words 0.
pub fn clear_finished(finished: &mut [u32], place: usize)
    requires { 4 * place + 4 ≤ length finished.old }
    ensures { finished.new ≡ clear_place finished.old place }
{
    let none = Words {
        w0: 0,
        w1: 0,
        w2: 0,
        w3: 0,
    };
    put_place(finished, place, none);
}

// An empty place takes the event; a full one keeps its first.
pub fn set_finished(finished: &mut [u32], place: usize, event: Words)
    requires { 4 * place + 4 ≤ length finished.old }
    ensures { finished.new ≡ fill_place finished.old place event }
{
    let last = 4 * place + 3;
    if finished[last] != 0 {
        return;
    }
    put_place(finished, place, event);
}
