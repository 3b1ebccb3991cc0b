// The parts that the lines of answers share, each put on a page: a word with a number, a refusal, four words, a slot, `bell`, `bad`.
#![tactic(auto)]

ghost use Rattle.std.specs.Prelude.{◌≡◌};
ghost use Rattle.page.specs.Page.{put_all};
ghost use Rattle.page.specs.Lent.{shown, loan};
ghost use Rattle.phrases.specs.Text.{word_line, number_line, no_line, failed_line, words_text, slot_line, bell_line};
ghost use Rattle.phrases.specs.Text.{bad_text};

use page::Page;
use trb::Words;

// A word by itself,
#[tactic(auto, using(page::proofs::PageLaws::put_both), unfolding(crate::specs::Text::numbers_line, crate::specs::Text::numbers_text))]
pub fn put_name(page: &mut Page, name: &[u8])
    ensures page { shown page.new ≡ put_all (shown page.old) (word_line name.now) }
    ensures same_bytes { loan page.new ≡ loan page.old }
{
    page.put_text(name);
    page.put_end();
}

// and with one number.
#[tactic(auto, using(page::proofs::PageLaws::put_both), unfolding(crate::specs::Text::numbers_line, crate::specs::Text::numbers_text))]
pub fn put_number(page: &mut Page, name: &[u8], n: u64)
    ensures page { shown page.new ≡ put_all (shown page.old) (number_line name.now n) }
    ensures same_bytes { loan page.new ≡ loan page.old }
{
    page.put_text(name);
    page.put_decimal(n);
    page.put_end();
}

// A refusal: `no` and its number.
pub fn put_no(page: &mut Page, number: u32)
    ensures page { shown page.new ≡ put_all (shown page.old) (no_line number) }
    ensures same_bytes { loan page.new ≡ loan page.old }
{
    put_number(page, b"no", u64::from(number));
}

// `no`, 8 and the code.
#[tactic(auto, using(page::proofs::PageLaws::put_both), unfolding(crate::specs::Text::numbers_line, crate::specs::Text::numbers_text))]
pub fn put_failed(page: &mut Page, code: u32)
    ensures page { shown page.new ≡ put_all (shown page.old) (failed_line code) }
    ensures same_bytes { loan page.new ≡ loan page.old }
{
    page.put_text(b"no");
    page.put_decimal(8);
    page.put_decimal(u64::from(code));
    page.put_end();
}

// Four words, behind what stands there.
#[tactic(auto, using(page::proofs::PageLaws::put_both), unfolding(crate::specs::Text::words_text))]
pub fn put_words(page: &mut Page, w: Words)
    ensures page { shown page.new ≡ put_all (shown page.old) (words_text w) }
    ensures same_bytes { loan page.new ≡ loan page.old }
{
    page.put_word(w.w0);
    page.put_word(w.w1);
    page.put_word(w.w2);
    page.put_word(w.w3);
    page.put_end();
}

// A slot and its words, under a name.
#[tactic(auto, using(page::proofs::PageLaws::put_both), unfolding(crate::specs::Text::slot_line))]
pub fn put_slot(page: &mut Page, name: &[u8], slot: usize, w: Words)
    ensures page { shown page.new ≡ put_all (shown page.old) (slot_line name.now slot w) }
    ensures same_bytes { loan page.new ≡ loan page.old }
{
    page.put_text(name);
    page.put_decimal(slot as u64);
    put_words(page, w);
}

// `bell`: the doorbell word, the id.
#[tactic(auto, using(page::proofs::PageLaws::put_both), unfolding(crate::specs::Text::bell_line))]
pub fn put_bell(page: &mut Page, bell: u32, id: u64)
    ensures page { shown page.new ≡ put_all (shown page.old) (bell_line bell id) }
    ensures same_bytes { loan page.new ≡ loan page.old }
{
    page.put_text(b"bell");
    page.put_hex(u64::from(bell));
    page.put_decimal(id);
    page.put_end();
}

// `bad` and the line's number.
pub fn put_bad(page: &mut Page, line: u64)
    ensures page { shown page.new ≡ put_all (shown page.old) (number_line bad_text line) }
    ensures same_bytes { loan page.new ≡ loan page.old }
{
    put_number(page, b"bad", line);
}
