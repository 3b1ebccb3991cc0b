// The packets of an isochronous request, one turn of the walk at a time: any table of packet records, with the request's packets one block of it.
// Document 01, "What a packet is worth".
//
// Where a walk stands is a record, by value. `turn` is the whole rule, for one packet: it marks it and says where to go on. The packets are passed
// from the first to the last, until a code is refused or the last packet is found; then from the first on again, and those without an event count 0.
// So a walk is at most two turns a packet. The loop over the lent table is `sweeping`'s.
#![tactic(auto)]

ghost use Rattle.std.specs.Prelude.{◌≡◌, ◌+◌, ◌<◌, length};
ghost use Rattle.finished.specs.Finished.{finished_at};
ghost use Rattle.marking.specs.Marking.{behind, fitting, begin_of, onward, closed_of, credit_of, seen_of, turn_of, Fine};

use packets::Packet;
use sizes::PACKET_COUNT;
use trb::Words;
use worth::value_of;

// The packets of a request: where they stand in the table, how many, the place of the first one's TRB, and the ring's slots.
#[derive(Clone, Copy)]
pub struct Block {
    pub first: usize,
    pub count: usize,
    pub place: usize,
    pub slots: usize,
}

// How a walk has ended, as far as it has come: not yet; at a refused code, or at the last packet, with the event's code; or not begun, for its block does
// not fit. Any other numbers that a caller gives for an ending and its code end no walk.
#[derive(Clone, Copy)]
pub enum Ended {
    Open,
    Refused(u32),
    Found(u32),
    Unfit,
    Other(u32, u32),
}

// Where a walk stands: the next packet and the place of its TRB; the first packet and the end; and how it ended.
#[derive(Clone, Copy)]
pub struct Standing {
    pub at: usize,
    pub end: usize,
    pub first: usize,
    pub place: usize,
    pub slots: usize,
    pub ended: Ended,
}

// A packet after its turn, and where the walk stands then.
#[derive(Clone, Copy)]
pub struct Turned {
    pub packet: Packet,
    pub standing: Standing,
}

// The place behind a place: slot 0 comes after slot L-2.
fn next_place(slots: usize, place: usize) -> usize
    requires { place + 1 < slots }
    ensures { result ≡ behind slots place }
{
    if place + 2 == slots { 0 } else { place + 1 }
}

// The block lies in the table, and its places in the finished table.
#[tactic(auto, unfolding(crate::specs::Marking::fitting))]
fn is_fitting(packets: usize, finished: usize, b: Block) -> bool
    ensures { result ≡ fitting packets finished b }
{
    b.slots <= sizes::MOST_SLOTS
        && b.place < b.slots
        && b.place + 1 != b.slots
        && finished == 4 * b.slots
        && b.first <= packets
        && b.count <= packets - b.first
}

// The start of a walk; one over a block that does not fit has no packets.
#[tactic(auto, unfolding(crate::specs::Marking::begin_of, crate::specs::Marking::fitting))]
pub fn begin(packets: usize, finished: usize, b: Block) -> Standing
    ensures { result ≡ begin_of packets finished b }
{
    if is_fitting(packets, finished, b) {
        return Standing {
            at: b.first,
            end: b.first + b.count,
            first: b.first,
            place: b.place,
            slots: b.slots,
            ended: Ended::Open,
        };
    }
    Standing {
        at: 0,
        end: 0,
        first: 0,
        place: 0,
        slots: 0,
        ended: Ended::Unfit,
    }
}

// The walk goes on behind a packet.
fn pass(s: Standing) -> Standing
    requires { (s.at < s.end) × (s.place + 1 < s.slots) }
    ensures { result ≡ onward s }
{
    Standing {
        at: s.at + 1,
        place: next_place(s.slots, s.place),
        ..s
    }
}

// A packet without an event counts 0 where the last packet was found.
#[tactic(auto, unfolding(crate::specs::Marking::closed_of))]
fn close(p: Packet) -> Packet
    ensures { result ≡ closed_of p }
{
    if p.marked {
        return p;
    }
    Packet {
        actual: 0,
        marked: true,
        ..p
    }
}

// A packet counts its bytes; with the last one the walk starts again, to close the others.
#[tactic(auto, unfolding(crate::specs::Marking::credit_of))]
fn credit(p: Packet, size: u32, code: u32, s: Standing) -> Turned
    requires { (s.at < s.end) × (s.place + 1 < s.slots) }
    ensures { result ≡ credit_of p size code s }
{
    let packet = Packet {
        actual: size,
        marked: true,
        ..p
    };
    if s.at + 1 != s.end {
        return Turned {
            packet,
            standing: pass(s),
        };
    }
    Turned {
        packet,
        standing: Standing {
            at: s.first,
            ended: Ended::Found(code),
            ..s
        },
    }
}

// A packet that is not marked, by what stands at its place.
#[tactic(auto, unfolding(crate::specs::Marking::seen_of))]
fn look(f: Option<Words>, p: Packet, s: Standing) -> Turned
    requires { (s.at < s.end) × (s.place + 1 < s.slots) }
    ensures { result ≡ seen_of f p s }
{
    match f {
        None => Turned {
            packet: p,
            standing: pass(s),
        },
        Some(w) => {
            let event = event::event_of(w);
            match value_of(event.code, p.requested, event.remaining) {
                Some(n) => credit(p, n, event.code, s),
                None => Turned {
                    packet: p,
                    standing: Standing {
                        at: s.end,
                        ended: Ended::Refused(event.code),
                        ..s
                    },
                },
            }
        }
    }
}

// One turn, at the packet where the walk stands.
#[tactic(auto, unfolding(crate::specs::Marking::turn_of))]
pub fn turn(p: Packet, finished: &[u32], s: Standing) -> Turned
    requires { (s.at < s.end) × Fine s (length finished.now) }
    ensures { result ≡ turn_of p (finished_at finished.now s.place) s }
{
    if matches!(s.ended, Ended::Found(_)) {
        return Turned {
            packet: close(p),
            standing: Standing { at: s.at + 1, ..s },
        };
    }
    if p.marked {
        return Turned {
            packet: p,
            standing: pass(s),
        };
    }
    look(finished::get_finished(finished, s.place), p, s)
}

// The packets of a record by value, and how the walk ended.
#[derive(Clone, Copy)]
pub struct Marked {
    pub packets: [Packet; PACKET_COUNT],
    pub standing: Standing,
}
