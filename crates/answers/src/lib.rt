// The lines that answers are written as, each put on a page.
#![tactic(auto)]

ghost use Rattle.std.specs.Prelude.{◌≡◌, ◌≤◌, ◌<◌};
ghost use Rattle.page.specs.Page.{put_all};
ghost use Rattle.page.specs.Lent.{shown, loan};
ghost use Rattle.sizes.specs.Sizes.{packet_count};
ghost use Rattle.phrases.specs.Text.{outcome_line, cut_line, stored_lines};
ghost use Rattle.phrases.specs.Text.{submitted_line, taken_line, counted_at, lengths_text, done_line, reclaimed_line, command_line, resetting_lines};
ghost use Rattle.phrases.specs.Text.{commanded_line, pointed_line, state_rest, state_line, stands_line};

use controller::Consumer;
use dock::{Completion, Endpoint, Reclaimed, Refusal, ResetCommands, Stored, Submitted};
use packets::Packet;
use page::Page;
use ring::Pointer;
use trb::Words;

// A word by itself where a call is done.
#[tactic(auto, unfolding(phrases::specs::Text::outcome_line))]
pub fn put_outcome(page: &mut Page, name: &[u8], answer: Result<(), Refusal>)
    ensures page { shown page.new ≡ put_all (shown page.old) (outcome_line name.now answer) }
    ensures same_bytes { loan page.new ≡ loan page.old }
{
    match answer {
        Ok(()) => phrases::put_name(page, name),
        Err(refusal) => phrases::put_no(page, refusal.number()),
    }
}

// `cut`: the id.
#[tactic(auto, unfolding(phrases::specs::Text::cut_line))]
pub fn put_cut(page: &mut Page, id: u64, answer: Result<(), Refusal>)
    ensures page { shown page.new ≡ put_all (shown page.old) (cut_line id answer) }
    ensures same_bytes { loan page.new ≡ loan page.old }
{
    match answer {
        Ok(()) => phrases::put_number(page, b"cut", id),
        Err(refusal) => phrases::put_no(page, refusal.number()),
    }
}

// `store`: the slot and its words; behind the last one `bell`.
#[tactic(auto, using(page::proofs::PageLaws::put_both), unfolding(phrases::specs::Text::stored_lines))]
pub fn put_stored(page: &mut Page, ring: &[u32], answer: Result<Stored, Refusal>)
    ensures page { shown page.new ≡ put_all (shown page.old) (stored_lines ring.now answer) }
    ensures same_bytes { loan page.new ≡ loan page.old }
{
    match answer {
        Ok(Stored::Slot(slot)) => {
            let w = controller::slot_words(ring, slot);
            phrases::put_slot(page, b"store", slot, w);
        }
        Ok(Stored::Last { slot, id, bell }) => {
            let w = controller::slot_words(ring, slot);
            phrases::put_slot(page, b"store", slot, w);
            phrases::put_bell(page, bell, id);
        }
        Err(refusal) => phrases::put_no(page, refusal.number()),
    }
}

#[tactic(auto, unfolding(phrases::specs::Text::submitted_line))]
pub fn put_submitted(page: &mut Page, answer: Result<Submitted, Refusal>)
    ensures page { shown page.new ≡ put_all (shown page.old) (submitted_line answer) }
    ensures same_bytes { loan page.new ≡ loan page.old }
{
    match answer {
        Ok(Submitted { id, bell }) => phrases::put_bell(page, bell, id),
        Err(refusal) => phrases::put_no(page, refusal.number()),
    }
}

// `taken`: the slot.
#[tactic(auto, unfolding(phrases::specs::Text::taken_line))]
pub fn put_taken(page: &mut Page, answer: Result<usize, Refusal>)
    ensures page { shown page.new ≡ put_all (shown page.old) (taken_line answer) }
    ensures same_bytes { loan page.new ≡ loan page.old }
{
    match answer {
        Ok(slot) => phrases::put_number(page, b"taken", slot as u64),
        Err(refusal) => phrases::put_no(page, refusal.number()),
    }
}

// What was counted for a packet.
#[tactic(auto, unfolding(phrases::specs::Text::counted_at, packets::specs::Packets::packet_at))]
fn counted(packets: &[u64], number: usize, k: usize) -> u64
    requires { k < packet_count }
    ensures { result ≡ counted_at packets.now number k }
{
    if sizes::RECORD_COUNT <= number {
        return 0;
    }
    let at = sizes::PACKET_COUNT * number + k;
    let word = packets.get(at).copied().unwrap_or(0);
    u64::from(Packet::from(word).actual)
}

// The lengths of a request's packets, one behind the other.
#[tactic(auto, unfolding(phrases::specs::Text::lengths_text, page::specs::Page::put_all))]
fn put_lengths(page: &mut Page, packets: &[u64], number: usize, count: usize)
    requires { count ≤ packet_count }
    ensures page { shown page.new ≡ put_all (shown page.old) (lengths_text count packets.now number 0) }
    ensures same_bytes { loan page.new ≡ loan page.old }
{
    for k in 0..count {
        page.put_decimal(counted(packets, number, k));
    }
}

// The lengths and the line's end.
#[tactic(auto, using(page::proofs::PageLaws::put_both), unfolding(phrases::specs::Text::done_line, phrases::specs::Text::numbers_text))]
fn put_done(page: &mut Page, packets: &[u64], c: Completion)
    ensures page { shown page.new ≡ put_all (shown page.old) (done_line packets.now c) }
    ensures same_bytes { loan page.new ≡ loan page.old }
{
    page.put_text(b"done");
    page.put_decimal(c.id);
    page.put_decimal(c.length);
    page.put_flag(c.yes);
    put_lengths(page, packets, c.number, c.packets.min(sizes::PACKET_COUNT));
    page.put_end();
}

#[tactic(auto, unfolding(phrases::specs::Text::reclaimed_line))]
pub fn put_reclaimed(page: &mut Page, packets: &[u64], answer: Result<Reclaimed, Refusal>)
    ensures page { shown page.new ≡ put_all (shown page.old) (reclaimed_line packets.now answer) }
    ensures same_bytes { loan page.new ≡ loan page.old }
{
    match answer {
        Ok(Reclaimed::Done(c)) => put_done(page, packets, c),
        Ok(Reclaimed::Cancelled) => phrases::put_no(page, 7),
        Ok(Reclaimed::Failed(code)) => phrases::put_failed(page, code),
        Ok(Reclaimed::Mismatch) => phrases::put_no(page, 9),
        Ok(Reclaimed::Nothing) => phrases::put_no(page, 10),
        Err(refusal) => phrases::put_no(page, refusal.number()),
    }
}

// `command`: four words.
#[tactic(auto, using(page::proofs::PageLaws::put_both), unfolding(phrases::specs::Text::command_line))]
fn put_command(page: &mut Page, w: Words)
    ensures page { shown page.new ≡ put_all (shown page.old) (command_line w) }
    ensures same_bytes { loan page.new ≡ loan page.old }
{
    page.put_text(b"command");
    phrases::put_words(page, w);
}

#[tactic(auto, using(page::proofs::PageLaws::put_both), unfolding(phrases::specs::Text::resetting_lines))]
pub fn put_resetting(page: &mut Page, answer: Result<Option<ResetCommands>, Refusal>)
    ensures page { shown page.new ≡ put_all (shown page.old) (resetting_lines answer) }
    ensures same_bytes { loan page.new ≡ loan page.old }
{
    match answer {
        Ok(None) => phrases::put_name(page, b"clear"),
        Ok(Some(c)) => {
            put_command(page, c.reset);
            put_command(page, c.dequeue);
        }
        Err(refusal) => phrases::put_no(page, refusal.number()),
    }
}

#[tactic(auto, unfolding(phrases::specs::Text::commanded_line))]
pub fn put_commanded(page: &mut Page, answer: Result<Words, Refusal>)
    ensures page { shown page.new ≡ put_all (shown page.old) (commanded_line answer) }
    ensures same_bytes { loan page.new ≡ loan page.old }
{
    match answer {
        Ok(w) => put_command(page, w),
        Err(refusal) => phrases::put_no(page, refusal.number()),
    }
}

// `pointer`: the address, the cycle.
#[tactic(auto, using(page::proofs::PageLaws::put_both), unfolding(phrases::specs::Text::pointed_line))]
pub fn put_pointed(page: &mut Page, answer: Result<Pointer, Refusal>)
    ensures page { shown page.new ≡ put_all (shown page.old) (pointed_line answer) }
    ensures same_bytes { loan page.new ≡ loan page.old }
{
    match answer {
        Ok(p) => {
            page.put_text(b"pointer");
            page.put_hex(p.address);
            page.put_flag(p.cycle);
            page.put_end();
        }
        Err(refusal) => phrases::put_no(page, refusal.number()),
    }
}

// The account and the flags, of a `state` line.
#[tactic(auto, using(page::proofs::PageLaws::put_both), unfolding(phrases::specs::Text::state_rest))]
fn put_rest(page: &mut Page, e: Endpoint)
    ensures page { shown page.new ≡ put_all (shown page.old) (state_rest e) }
    ensures same_bytes { loan page.new ≡ loan page.old }
{
    page.put_decimal(e.account.next);
    page.put_decimal(u64::from(e.periodic.frame));
    page.put_flag(e.flags.halted);
    page.put_flag(e.flags.reset);
    page.put_end();
}

// `state`: place, cycle, outstanding, next id, next frame, halted, reset under way.
#[tactic(auto, using(page::proofs::PageLaws::put_both), unfolding(phrases::specs::Text::state_line))]
pub fn put_state(page: &mut Page, e: Endpoint)
    ensures page { shown page.new ≡ put_all (shown page.old) (state_line e) }
    ensures same_bytes { loan page.new ≡ loan page.old }
{
    page.put_text(b"state");
    page.put_decimal(e.at.place as u64);
    page.put_flag(e.at.cycle);
    page.put_decimal(e.account.outstanding);
    put_rest(page, e);
}

// `stands`: slot, cycle.
#[tactic(auto, using(page::proofs::PageLaws::put_both), unfolding(phrases::specs::Text::stands_line))]
pub fn put_stands(page: &mut Page, c: Consumer)
    ensures page { shown page.new ≡ put_all (shown page.old) (stands_line c) }
    ensures same_bytes { loan page.new ≡ loan page.old }
{
    page.put_text(b"stands");
    page.put_decimal(c.slot as u64);
    page.put_flag(c.state);
    page.put_end();
}
