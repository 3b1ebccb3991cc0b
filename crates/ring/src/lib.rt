// The producer's side of a ring of TRBs: ring.rs of the Rust, store by store.
//
// The ring is a lent slice of words, four a slot. Slots 0 to L-2 take TRBs, and slot L-1 takes the link, which leads back to slot 0. The
// producer has a position: the place of the next store, and the cycle bit that it gets. A store changes the four words of one slot, which are
// lent to the encoder as a part of the ring, and nothing else; then the place rises. At place L-1 the link is stored with the old cycle, and
// the position goes round to place 0 with the cycle toggled. A TRB stored with the opposite cycle is not yet the controller's: the same TRB is
// stored again, with the right one, when the rest of its TD stands behind it.
//
// This crate knows no transfer. What it asks of its callers is that a slot lies in the ring; the calls of the dock test it.
#![tactic(auto)]

ghost use Rattle.std.specs.Prelude.{◌≡◌, ◌+◌, ◌*◌, ◌^◌, ◌<◌, ◌≤◌, length};
ghost use Rattle.ring.specs.Ring.{store_at, cycle_by, position_by, stored_by, enque_transfer, enque_deferred, enque_again, next_index, slot_address, enqueue_pointer, slot_of};

use trb::Trb;

// Where the next TRB goes, and the cycle bit that it gets.
#[derive(Clone, Copy)]
pub struct Position {
    pub place: usize,
    pub cycle: bool,
}

// A TRB's words in a slot, with a cycle bit. Every store comes here.
fn set_transfer_trb(ring: &mut [u32], place: usize, trb: Trb, cycle: bool)
    requires { 4 * place + 4 ≤ length ring.old }
    ensures { ring.new ≡ store_at ring.old place trb cycle }
{
    let start = 4 * place;
    encoding::encode(&mut ring[start..start + 4], trb, cycle);
}

// How a store is made: a TRB's, with the current cycle or, deferred, with the opposite one, after which the place rises; the link's, at the last
// slot; or a deferred TRB's second one, with the right cycle, which moves nothing.
#[derive(Clone, Copy)]
pub enum Manner {
    Onward { deferred: bool },
    Around,
    Again,
}

// The cycle bit of a store.
fn cycle_by(manner: Manner, cycle: bool) -> bool
    ensures { result ≡ cycle_by manner cycle }
{
    match manner {
        Manner::Onward { deferred } => {
            if deferred {
                return !cycle;
            }
            cycle
        }
        Manner::Around => cycle,
        Manner::Again => cycle,
    }
}

// Where the producer stands behind a store.
fn position_by(manner: Manner, p: Position) -> Position
    requires { p.place + 1 < 2 ^ 64 }
    ensures { result ≡ position_by manner p }
{
    let place = p.place;
    let cycle = p.cycle;
    match manner {
        Manner::Onward { deferred } => Position {
            place: place + 1,
            cycle,
        },
        Manner::Around => Position {
            place: 0,
            cycle: !cycle,
        },
        Manner::Again => p,
    }
}

// One store on values: the TRB at the place, and the position behind it.
fn put(ring: &mut [u32], p: Position, trb: Trb, manner: Manner) -> Position
    requires { 4 * p.place + 4 ≤ length ring.old }
    ensures { (result, ring.new) ≡ stored_by manner ring.old p trb }
{
    set_transfer_trb(ring, p.place, trb, cycle_by(manner, p.cycle));
    position_by(manner, p)
}

// One store with the position lent and changed in place.
pub fn step(p: &mut Position, ring: &mut [u32], trb: Trb, manner: Manner)
    requires { 4 * p.old.place + 4 ≤ length ring.old }
    ensures { (p.new, ring.new) ≡ stored_by manner ring.old p.old trb }
{
    let next = put(ring, *p, trb, manner);
    *p = next;
}

// The same for a caller that keeps the position by value.
pub fn stored(ring: &mut [u32], p: Position, trb: Trb, manner: Manner) -> Position
    requires { 4 * p.place + 4 ≤ length ring.old }
    ensures { (result, ring.new) ≡ stored_by manner ring.old p trb }
{
    let mut q = p;
    step(&mut q, ring, trb, manner);
    q
}

// A TRB at the place, with the current cycle; the place rises.
pub fn enque_transfer(ring: &mut [u32], p: Position, trb: Trb) -> Position
    requires { 4 * p.place + 4 ≤ length ring.old }
    ensures { (result, ring.new) ≡ enque_transfer ring.old p trb }
{
    stored(ring, p, trb, Manner::Onward { deferred: false })
}

// The same with the opposite cycle: the controller does not take it yet.
pub fn enque_transfer_deferred_cycle(ring: &mut [u32], p: Position, trb: Trb) -> Position
    requires { 4 * p.place + 4 ≤ length ring.old }
    ensures { (result, ring.new) ≡ enque_deferred ring.old p trb }
{
    stored(ring, p, trb, Manner::Onward { deferred: true })
}

// The TRB that was stored at this position with the opposite cycle, again, with the right one (where the Rust ends a TD with `set_transfer_trb`).
pub fn enque_transfer_again(ring: &mut [u32], p: Position, trb: Trb)
    requires { 4 * p.place + 4 ≤ length ring.old }
    ensures { ring.new ≡ enque_again ring.old p trb }
{
    stored(ring, p, trb, Manner::Again);
}

// The link at the place, which is the last slot, with the old cycle; then place 0 and the cycle toggled. `chain` says that a TD goes on behind it.
pub fn next_index(ring: &mut [u32], p: Position, base: u64, chain: bool) -> Position
    requires { 4 * p.place + 4 ≤ length ring.old }
    ensures { (result, ring.new) ≡ next_index ring.old p base chain }
{
    let link = Trb::Link {
        address: base,
        toggle: true,
        chain,
    };
    stored(ring, p, link, Manner::Around)
}

// The address of a slot.
pub fn trb_bus_addr(base: u64, place: usize) -> u64
    requires { base + 16 * place < 2 ^ 64 }
    ensures { result ≡ slot_address base place }
{
    base + 16 * (place as u64)
}

// Where the producer stands, as a command tells it to the controller.
#[derive(Clone, Copy)]
pub struct Pointer {
    pub address: u64,
    pub cycle: bool,
}

pub fn enqueue_pointer(base: u64, p: Position) -> Pointer
    requires { base + 16 * p.place < 2 ^ 64 }
    ensures { result ≡ enqueue_pointer base p }
{
    let place = p.place;
    Pointer {
        address: trb_bus_addr(base, place),
        cycle: p.cycle,
    }
}

pub fn slot_of(base: u64, slots: usize, address: u64) -> Option<usize>
    ensures { result ≡ slot_of base slots address }
{
    if address < base {
        return None;
    }
    let offset = address - base;
    if offset % 16 != 0 {
        return None;
    }
    let at = (offset / 16) as usize;
    if slots <= at {
        return None;
    }
    Some(at)
}
