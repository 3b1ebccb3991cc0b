// A line that was read, served: the call that its word names, with its values.
ghost use Rattle.std.specs.Prelude.{◌≡◌};
ghost use Rattle.console.specs.Serve.{serve_named, is_call, serve_calls};
ghost use Rattle.console.specs.Serve.{serve_session, serve_alone, serve, is_step};
ghost use Rattle.page.specs.Lent.{shown, loan};

use dock::Endpoint;
use lines::{Line, Reading};
use page::Page;
use values::{Next, Turn, value};
use words::Word;

// `begin` or `whole`, and a request.
#[tactic(auto, unfolding(crate::specs::Serve::serve_named))]
fn serve_named(
    e: Endpoint,
    ring: &mut [u32],
    finished: &mut [u32],
    records: &mut [u64],
    packets: &mut [u64],
    line: Line,
    values: &[u64],
    page: &mut Page,
) -> Turn
    ensures leaves { (result, ring.new, finished.new, records.new, packets.new, shown page.new) ≡ serve_named e ring.old finished.old records.old packets.old line values.now (shown page.old) }
    ensures same_bytes { loan page.new ≡ loan page.old }
{
    let request = values::request_of(line.word, values);
    let lengths = values::lengths_of(line.word, values, line.count);
    match line.before {
        Some(Word::Begin) => calls::begun(e, records, packets, request, lengths, page),
        _ => calls::submitted(e, ring, finished, records, packets, request, lengths, page),
    }
}

// The calls that a drive adds.
#[tactic(auto, unfolding(crate::specs::Serve::is_call))]
fn is_call(w: Word) -> bool
    ensures { result ≡ is_call w }
{
    matches!(
        w,
        Word::Configure
            | Word::Retire
            | Word::Stop
            | Word::Resume
            | Word::Reset
            | Word::End
            | Word::Pointer
    )
}

#[tactic(auto, unfolding(crate::specs::Serve::serve_calls))]
fn serve_calls(e: Endpoint, records: &mut [u64], w: Word, values: &[u64], page: &mut Page) -> Turn
    ensures leaves { (result, records.new, shown page.new) ≡ serve_calls e records.old w values.now (shown page.old) }
    ensures same_bytes { loan page.new ≡ loan page.old }
{
    match w {
        Word::Configure => calls::configured(e, values, page),
        Word::Retire => calls::retired(e, records, page),
        Word::Stop => calls::stopped(e, page),
        Word::Resume => calls::resumed(e, page),
        Word::Reset => calls::reset(e, records, page),
        Word::End => calls::ended(e, value(values, 0) == 1, page),
        _ => calls::pointed(e, page),
    }
}

// The words of a session.
#[tactic(auto, unfolding(crate::specs::Serve::serve_session))]
fn serve_session(
    e: Endpoint,
    ring: &mut [u32],
    finished: &mut [u32],
    records: &mut [u64],
    packets: &mut [u64],
    line: Line,
    values: &[u64],
    page: &mut Page,
) -> Turn
    ensures leaves { (result, ring.new, finished.new, records.new, packets.new, shown page.new) ≡ serve_session e ring.old finished.old records.old packets.old line values.now (shown page.old) }
    ensures same_bytes { loan page.new ≡ loan page.old }
{
    let first = value(values, 0);
    match line.word {
        Word::Event => calls::handed(e, finished, values, page),
        Word::Reclaim => calls::reclaimed(e, finished, records, packets, first, page),
        Word::Cancel => calls::cancelled(e, records, first, page),
        _ => {
            let request = values::request_of(line.word, values);
            let lengths = values::lengths_of(line.word, values, line.count);
            calls::asked(e, ring, finished, records, packets, request, lengths, page)
        }
    }
}

// The words that stand first on a line.
#[tactic(auto, unfolding(crate::specs::Serve::serve_alone))]
fn serve_alone(
    e: Endpoint,
    ring: &mut [u32],
    finished: &mut [u32],
    records: &mut [u64],
    packets: &mut [u64],
    line: Line,
    values: &[u64],
    page: &mut Page,
) -> Turn
    ensures leaves { (result, ring.new, finished.new, records.new, packets.new, shown page.new) ≡ serve_alone e ring.old finished.old records.old packets.old line values.now (shown page.old) }
    ensures same_bytes { loan page.new ≡ loan page.old }
{
    match line.word {
        Word::Store => {
            let t = calls::stored(e, ring, finished, records, packets, page);
            Turn {
                e: t.e,
                next: Next::On,
            }
        }
        w if is_call(w) => serve_calls(e, records, w, values, page),
        w if bench::serve::is_tool(w) => bench::serve::serve_tools(e, ring, w, values, page),
        _ => serve_session(e, ring, finished, records, packets, line, values, page),
    }
}

// A line, with a ring made.
#[tactic(auto, unfolding(crate::specs::Serve::serve))]
pub fn serve(
    e: Endpoint,
    ring: &mut [u32],
    finished: &mut [u32],
    records: &mut [u64],
    packets: &mut [u64],
    r: Reading,
    values: &[u64],
    page: &mut Page,
) -> Turn
    ensures leaves { (result, ring.new, finished.new, records.new, packets.new, shown page.new) ≡ serve e ring.old finished.old records.old packets.old r values.now (shown page.old) }
    ensures same_bytes { loan page.new ≡ loan page.old }
{
    if values::is_bad(r) {
        return Turn { e, next: Next::Bad };
    }
    let Some(line) = r.line() else {
        return Turn { e, next: Next::Bad };
    };
    match line.before {
        None => serve_alone(e, ring, finished, records, packets, line, values, page),
        Some(Word::Poke) => {
            bench::serve::serve_poke(e, ring, finished, records, packets, line.word, values)
        }
        Some(_) => serve_named(e, ring, finished, records, packets, line, values, page),
    }
}

// Is it a line that steps the controller?
#[tactic(auto, unfolding(crate::specs::Serve::is_step))]
pub fn is_step(r: Reading) -> bool
    ensures { result ≡ is_step r }
{
    matches!(
        r.line(),
        Some(Line {
            before: None,
            word: Word::Step,
            ..
        })
    )
}
