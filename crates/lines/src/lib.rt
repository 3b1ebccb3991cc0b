// A line that is being read, byte by byte: `feed` takes one byte, `finish` the line's end, and `scan` the bytes that are there.
//
// So no line, no field and no number is too long. `Reading` is what is known between two bytes; the words and their fields are `words`', the digits
// `digits`'.
#![tactic(auto)]

ghost use Rattle.std.specs.Prelude.{◌≡◌, drop};
ghost use Rattle.lines.specs.Reader.{start, bad, letter, digit, keep, close_word, close_number, close, opened, feed, complete, finish, line_of, scan};

use words::Word;

// What is known of a line between two of its bytes: whether it may have a drive's words; whether all could be read so far; whether the field under way
// is a word; the word before the line's word; the number that the letters of its word make so far, and the word, once it has ended; the form of the fields
// still to come, that under way first; the number under way, once it has a digit; and how many numbers stand.
#[derive(Clone, Copy)]
pub struct Reading {
    pub full: bool,
    pub good: bool,
    pub naming: bool,
    pub before: Option<Word>,
    pub letters: u64,
    pub word: Option<Word>,
    pub form: u64,
    pub value: Option<u64>,
    pub count: usize,
}

// What a line says: the word before its word, where it has two, the word, and how many numbers stand.
#[derive(Clone, Copy)]
pub struct Line {
    pub before: Option<Word>,
    pub word: Word,
    pub count: usize,
}

// What was read of some bytes: the line so far, the place behind the last byte read, and whether the line ended there.
#[derive(Clone, Copy)]
pub struct Scanned {
    pub line: Reading,
    pub at: usize,
    pub ended: bool,
}

// A line of which nothing is read.
pub fn start(full: bool) -> Reading
    ensures { result ≡ start full }
{
    Reading {
        full,
        good: true,
        naming: true,
        before: None,
        letters: 0,
        word: None,
        form: 0,
        value: None,
        count: 0,
    }
}

impl Reading {
    // What the line says so far; nothing where it is bad. A word that has not ended is what its letters make so far.
    #[tactic(auto, unfolding(crate::specs::Reader::line_of))]
    pub fn line(self) -> Option<Line>
        ensures { result ≡ line_of self }
    {
        if !self.good {
            return None;
        }
        let word = match self.word {
            Some(word) => word,
            None => Word::of_letters(self.letters),
        };
        Some(Line {
            before: self.before,
            word,
            count: self.count,
        })
    }

    // A line that cannot be read.
    fn bad(self) -> Reading
        ensures { result ≡ bad self }
    {
        Reading {
            good: false,
            ..self
        }
    }

    // A letter of a word: one that had ended goes on.
    #[tactic(auto, unfolding(crate::specs::Reader::letter, crate::specs::Reader::grows))]
    fn letter(self, b: u8) -> Reading
        ensures { result ≡ letter self b }
    {
        match b {
            b'a'..=b'z' if self.letters < 0x80_0000_0000_0000 => Reading {
                letters: self.letters * 32 + u64::from(b - b'a' + 1),
                word: None,
                ..self
            },
            _ => self.bad(),
        }
    }

    // A digit of a number.
    #[tactic(auto, using(digits::proofs::NumberLaws::fits_within), unfolding(crate::specs::Reader::digit, digits::specs::Digits::grown_by))]
    fn digit(self, b: u8) -> Reading
        ensures { result ≡ digit self b }
    {
        let kind = self.form % 16;
        let base = words::base_of(kind);
        let value = self.value.unwrap_or(0);
        match digits::digit_of(b) {
            Some(digit) if digits::fits(value, base, digit, words::most_of(kind)) => Reading {
                value: Some(value * base + digit),
                ..self
            },
            _ => self.bad(),
        }
    }

    // The word ends: it is one that is known, and its form is that of the fields to come.
    #[tactic(auto, unfolding(crate::specs::Reader::close_word))]
    fn close_word(self) -> Reading
        ensures { result ≡ close_word self }
    {
        let Some(word) = Word::from_letters(self.letters) else {
            return self.bad();
        };
        match words::form_of(self.full, self.before, word) {
            Some(form) => Reading {
                word: Some(word),
                form,
                ..self
            },
            None => self.bad(),
        }
    }

    // The number ends.
    #[tactic(auto, unfolding(crate::specs::Reader::close_number))]
    fn close_number(self, values: &mut [u64]) -> Reading
        ensures { (result, values.new) ≡ close_number self values.old }
    {
        let Some(value) = self.value else {
            return self.bad();
        };
        Reading {
            count: keep(values, self.count, value),
            form: words::rest_of(self.form),
            ..self
        }
    }

    // A field ends: a word where it is one, or where no word has ended yet. Behind a word's end the field is a word still, until another begins.
    #[tactic(auto, unfolding(crate::specs::Reader::close))]
    fn close(self, values: &mut [u64]) -> Reading
        ensures { (result, values.new) ≡ close self values.old }
    {
        if self.naming || self.word.is_none() {
            self.close_word()
        } else {
            self.close_number(values)
        }
    }

    // Another field begins.
    #[tactic(auto, unfolding(crate::specs::Reader::opened))]
    fn next_field(self) -> Reading
        ensures { result ≡ opened self }
    {
        if !self.good {
            return self;
        }
        match self.form {
            0 => self.bad(),
            words::NAME => Reading {
                naming: true,
                before: self.word,
                letters: 0,
                word: None,
                form: 0,
                ..self
            },
            _ => Reading {
                naming: false,
                value: None,
                ..self
            },
        }
    }
}

// A value is kept where there is room for it.
#[tactic(auto, unfolding(crate::specs::Reader::keep))]
fn keep(values: &mut [u64], count: usize, v: u64) -> usize
    ensures { (result, values.new) ≡ keep count v values.old }
{
    if count < values.len() {
        values[count] = v;
        return count + 1;
    }
    count
}

// One byte of the line.
#[tactic(auto, unfolding(crate::specs::Reader::feed))]
pub fn feed(r: Reading, values: &mut [u64], b: u8) -> Reading
    ensures { (result, values.new) ≡ feed r values.old b }
{
    if !r.good {
        return r;
    }
    if b == b'\t' {
        return r.close(values).next_field();
    }
    if r.naming { r.letter(b) } else { r.digit(b) }
}

#[tactic(auto, unfolding(crate::specs::Reader::complete))]
fn is_complete(form: u64) -> bool
    ensures { result ≡ complete form }
{
    matches!(form, 0 | words::COUNTS)
}

// The line ends: every field that the word takes must have come.
#[tactic(auto, unfolding(crate::specs::Reader::finish))]
pub fn finish(r: Reading, values: &mut [u64]) -> Reading
    ensures { (result, values.new) ≡ finish r values.old }
{
    if !r.good {
        return r;
    }
    let last = r.close(values);
    if is_complete(last.form) {
        last
    } else {
        last.bad()
    }
}

// Reads on from a place, to the line's end or to the end of what is there.
pub fn scan(bytes: &[u8], from: usize, r: Reading, values: &mut [u64]) -> Scanned
    ensures { (result, values.new) ≡ scan (drop from bytes.now) from r values.old }
{
    let mut line = r;
    for at in from..bytes.len() {
        if bytes[at] == b'\n' {
            return Scanned {
                line: finish(line, values),
                at: at + 1,
                ended: true,
            };
        }
        line = feed(line, values, bytes[at]);
    }
    Scanned {
        line,
        at: from.max(bytes.len()),
        ended: false,
    }
}
