// The numbers of documents 01 and 02, most of them of "What a dock may hold", and the kinds of a request, each once: the constants here, for the code; the
// same by the same name in specs/Sizes.antt, for the definitions (a slot id is a u8, so that its largest needs no constant). No function.
#![tactic(auto)]

// "Slots L: 3 to 4,096."
pub const FEWEST_SLOTS: usize = 3;

pub const MOST_SLOTS: usize = 4096;

// "Base: a multiple of 4,096."
pub const ALIGNMENT: u64 = 4096;

// Document 02: "a transfer ring segment may not cross a 64 KiB address boundary."
pub const BOUNDARY: u64 = 65536;

// A TRB: its bytes, and its words in the ring; an event has as many in the finished table.
pub const TRB_BYTES: u64 = 16;

pub const TRB_WORDS: usize = 4;

// "dci 1 to 31."
pub const MOST_DCI: u8 = 31;

// "64 request records": the records of a table, and the words of a record.
pub const RECORD_COUNT: usize = 64;

pub const RECORD_WORDS: usize = 12;

pub const RECORDS_SIZE: usize = RECORD_COUNT * RECORD_WORDS;

// "64 packet records for each", of one word.
pub const PACKET_COUNT: usize = 64;

pub const PACKETS_SIZE: usize = RECORD_COUNT * PACKET_COUNT;

// "Data length: bulk, interrupt or one packet at most 65,536; control at most 65,535."
pub const LONGEST: u64 = 65536;

pub const LONGEST_CONTROL: u64 = 65535;

// The frame numbers: the next one moves "modulo 2,048".
pub const FRAMES: u32 = 2048;

// The kinds of a request, as its record has them; in the definitions their names end in `_number`.
pub const CONTROL: u64 = 0;

pub const BULK: u64 = 1;

pub const INTERRUPT: u64 = 2;

pub const ISOCH: u64 = 3;
