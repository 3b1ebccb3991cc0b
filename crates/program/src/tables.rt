// The tables that a program lends to the calls: the words of a ring of 4,096 slots and of its finished table, records and packets.
ghost use Rattle.std.specs.Prelude.{◌≤◌};
ghost use Rattle.sizes.specs.Sizes.{most_slots, ring_size};

use console::serve;
use controller::Consumer;
use dock::{After, Endpoint};
use lines::Reading;
use page::Page;
use values::{Turn, value};

const WORDS: usize = sizes::TRB_WORDS * sizes::MOST_SLOTS;

#[derive(Drop)]
pub struct Tables {
    ring: [u32; WORDS],
    finished: [u32; WORDS],
    records: [u64; sizes::RECORDS_SIZE],
    packets: [u64; sizes::PACKETS_SIZE],
}

// The words of a table of so many slots; of more than 4,096 there is none.
fn size_of(slots: usize) -> usize
    ensures { result ≤ ring_size most_slots }
{
    if sizes::MOST_SLOTS < slots {
        return 0;
    }
    sizes::TRB_WORDS * slots
}

// The part of a table that has the size of a ring of so many slots; of more than 4,096 there is none.
fn part(table: &mut [u32; WORDS], slots: usize) -> &mut [u32] {
    &mut table[..size_of(slots)]
}

impl Tables {
    pub fn new() -> Tables {
        Tables {
            ring: [0; WORDS],
            finished: [0; WORDS],
            records: [0; sizes::RECORDS_SIZE],
            packets: [0; sizes::PACKETS_SIZE],
        }
    }

    // A ring is made in the parts of the tables that have its size.
    pub fn make(&mut self, values: &[u64]) -> After<()> {
        let slots = value(values, 0) as usize;
        let Tables {
            ring,
            finished,
            records,
            packets,
        } = self;
        calls::made(
            part(ring, slots),
            part(finished, slots),
            records,
            packets,
            values,
        )
    }

    // A line is served on them,
    pub fn serve(&mut self, e: Endpoint, line: Reading, values: &[u64], page: &mut Page) -> Turn {
        let slots = e.shape.slots;
        let Tables {
            ring,
            finished,
            records,
            packets,
        } = self;
        serve::serve(
            e,
            part(ring, slots),
            part(finished, slots),
            records,
            packets,
            line,
            values,
            page,
        )
    }

    // and the controller steps there.
    pub fn step(&self, e: Endpoint, most: u64, c: Consumer, page: &mut Page) -> Consumer {
        bench::tools::walk_on(most, &self.ring[..size_of(e.shape.slots)], c, page)
    }
}
