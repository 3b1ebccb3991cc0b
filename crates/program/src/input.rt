// The input, line by line, and the page that is written before more of it is waited for.
use lines::Reading;
use page::Page;
use std::io::{Read, Stdin};

// How many bytes are read at once.
const BYTES: usize = 65536;

// The input: what was read of it and not yet looked at stands in `bytes` from `at` to `have`. `line` is the number of the line that was read last.
#[derive(Drop)]
pub struct Input {
    bytes: [u8; BYTES],
    at: usize,
    have: usize,
    pub line: u64,
}

impl Input {
    pub fn new() -> Input {
        Input {
            bytes: [0; BYTES],
            at: 0,
            have: 0,
            line: 0,
        }
    }

    // More of the input, where all of what came is looked at. Before it is waited for, what stands on the page is written.
    // A read that fails ends the input.
    fn fill(&mut self, stdin: &mut Stdin, page: &mut Page) {
        if self.at < self.have {
            return;
        }
        page.flush();
        self.have = stdin.read(&mut self.bytes).unwrap_or(0);
        self.at = 0;
    }

    // The next line; none where the input has ended.
    pub fn next_line(
        &mut self,
        stdin: &mut Stdin,
        values: &mut [u64],
        full: bool,
        page: &mut Page,
    ) -> Option<Reading> {
        self.line = self.line.wrapping_add(1);
        let mut line = None;
        for _ in 0..u64::MAX {
            self.fill(stdin, page);
            if self.have == 0 {
                return match line {
                    Some(read) => Some(lines::finish(read, values)),
                    None => None,
                };
            }
            let read = line.unwrap_or(lines::start(full));
            let came = &self.bytes[..self.have.min(BYTES)];
            let s = lines::scan(came, self.at, read, values);
            self.at = s.at;
            line = Some(s.line);
            if s.ended {
                break;
            }
        }
        line
    }
}
