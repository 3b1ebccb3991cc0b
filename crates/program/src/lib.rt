// The loop of a session or a drive: bytes are read from standard input and handed to the reader of lines, each line is served, and what stands on the
// page is written, to the input's end or a bad line. What a line does is decided in `console::serve` and `values::opening_of`.
#![tactic(auto)]

mod input;
mod tables;

use crate::input::Input;
use crate::tables::Tables;
use console::serve;
use controller::Consumer;
use dock::{After, Endpoint, Refusal};
use lines::Reading;
use page::Page;
use std::io::Stdin;
use values::{Next, Opening, value};

// The numbers of a line.
const VALUES: usize = 4098;

// How many bytes the page has room for.
const PAGE_SIZE: usize = 65536;

// What stands between two lines where a ring is made: its endpoint, and the controller.
#[derive(Clone, Copy)]
struct Bench {
    e: Endpoint,
    c: Consumer,
}

// The line was bad, so that nothing follows.
struct BadLine;

// What is left behind a ring that was made, or was refused.
fn opened(m: After<()>, page: &mut Page) -> Option<Bench> {
    match m.answer {
        Err(refusal) => {
            phrases::put_no(page, refusal.number());
            None
        }
        Ok(()) => Some(Bench {
            e: m.endpoint,
            c: controller::outset(),
        }),
    }
}

// A line with no ring made: it makes a ring of at most so many slots, or it is bad.
fn open(
    tables: &mut Tables,
    line: Reading,
    values: &[u64],
    page: &mut Page,
    most: u64,
) -> Result<Option<Bench>, BadLine> {
    match values::opening_of(line, values, most) {
        Opening::Bad => Err(BadLine),
        Opening::TooLarge => {
            phrases::put_no(page, Refusal::OutsideLimits.number());
            Ok(None)
        }
        Opening::Ring => Ok(opened(tables.make(values), page)),
    }
}

// A line with a ring made: `step`, or any other.
fn attend(
    bench: Bench,
    tables: &mut Tables,
    line: Reading,
    values: &[u64],
    page: &mut Page,
) -> Result<Option<Bench>, BadLine> {
    let e = bench.e;
    if serve::is_step(line) {
        let c = tables.step(e, value(values, 0), bench.c, page);
        return Ok(Some(Bench { e, c }));
    }
    let t = tables.serve(e, line, values, page);
    match t.next {
        Next::On => Ok(Some(Bench { e: t.e, c: bench.c })),
        Next::New => Ok(None),
        Next::Bad => Err(BadLine),
    }
}

// All lines of standard input; a ring has at most `most` slots. `full` says that a drive's words are known.
pub fn run(stdin: &mut Stdin, full: bool, most: u64) {
    let mut input = Input::new();
    let mut tables = Tables::new();
    let mut values = [0; VALUES];
    let mut bytes = [0; PAGE_SIZE];
    let mut page = Page::new(&mut bytes);
    let mut bench = None;
    for _ in 0..u64::MAX {
        let Some(line) = input.next_line(stdin, &mut values, full, &mut page) else {
            break;
        };
        let left = match bench {
            Some(made) => attend(made, &mut tables, line, &values, &mut page),
            None => open(&mut tables, line, &values, &mut page, most),
        };
        match left {
            Ok(next) => bench = next,
            Err(BadLine) => {
                phrases::put_bad(&mut page, input.line);
                break;
            }
        }
    }
    page.flush();
}
