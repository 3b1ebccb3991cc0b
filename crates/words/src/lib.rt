// The words of a session and of a drive, and the fields that each takes.
//
// The letters of a word are read as the number that they make, a to z as the digits 1 to 26 of base 32: then nothing of a word is kept but a number, and
// no two words make one number. Where the letters end the number is looked up, and from there on a word is a `Word`. The fields that a word takes
// are a form: a number whose hex digits, from the lowest, are the kinds of the fields in order. It is a number and no list of an enum, so that what is
// known of a line between two of its bytes borrows nothing.
#![tactic(auto)]

ghost use Rattle.std.specs.Prelude.{◌≡◌, ◌||◌, eqb};
ghost use Rattle.words.specs.Words.{word_of, of_letters, session_form, is_bare, takes_count, takes_name, drive_form, request_form, table_form};
ghost use Rattle.words.specs.Words.{form_of, is_hex, base_of, most_of, rest_of};

#[derive(Clone, Copy, PartialEq, Eq)]
pub enum Word {
    // Of a session.
    Ring,
    Control,
    Bulk,
    Iso,
    Event,
    Reclaim,
    Cancel,
    // Of a drive.
    Configure,
    Interrupt,
    Begin,
    Store,
    Whole,
    Slot,
    Retire,
    Stop,
    Resume,
    Reset,
    End,
    Pointer,
    Step,
    NextId,
    Poke,
    State,
    New,
    Finished,
    Records,
    Packets,
    // Letters that make none of these, and their number.
    Other(u64),
}

impl Word {
    // The word whose letters make a number.
    #[tactic(auto, unfolding(crate::specs::Words::word_of))]
    pub fn from_letters(letters: u64) -> Option<Word>
        ensures { result ≡ word_of letters }
    {
        match letters {
            599495 => Some(Word::Ring),
            3739896300 => Some(Word::Control),
            87435 => Some(Word::Bulk),
            9839 => Some(Word::Iso),
            5969364 => Some(Word::Event),
            19498665261 => Some(Word::Reclaim),
            102173868 => Some(Word::Cancel),
            3829174359621 => Some(Word::Configure),
            10398303082004 => Some(Word::Interrupt),
            2268462 => Some(Word::Begin),
            20594245 => Some(Word::Store),
            24395141 => Some(Word::Whole),
            635380 => Some(Word::Slot),
            609887813 => Some(Word::Retire),
            643568 => Some(Word::Stop),
            609867173 => Some(Word::Resume),
            19057844 => Some(Word::Reset),
            5572 => Some(Word::End),
            17693102258 => Some(Word::Pointer),
            643248 => Some(Word::Step),
            475812132 => Some(Word::NextId),
            540005 => Some(Word::Poke),
            20579973 => Some(Word::State),
            14519 => Some(Word::New),
            216301936804 => Some(Word::Finished),
            19498780819 => Some(Word::Records),
            17216935571 => Some(Word::Packets),
            _ => None,
        }
    }

    // What any letters make: one of the words, or another.
    #[tactic(auto, unfolding(crate::specs::Words::of_letters))]
    pub fn of_letters(letters: u64) -> Word
        ensures { result ≡ of_letters letters }
    {
        Word::from_letters(letters).unwrap_or(Word::Other(letters))
    }
}

// The kinds of fields that code names: a word that names another, and counts to the line's end.
pub const NAME: u64 = 14;

pub const COUNTS: u64 = 15;

// The forms.
const CONTROL_FORM: u64 = 0x12_5544;

const BULK_FORM: u64 = 0x127;

const ISO_FORM: u64 = 0xf127;

// The words of a session.
#[tactic(auto, unfolding(crate::specs::Words::session_form))]
pub fn session_form(w: Word) -> Option<u64>
    ensures { result ≡ session_form w }
{
    match w {
        Word::Ring => Some(0x3_3221),
        Word::Control => Some(CONTROL_FORM),
        Word::Bulk => Some(BULK_FORM),
        Word::Iso => Some(ISO_FORM),
        Word::Event => Some(0x6666),
        Word::Reclaim | Word::Cancel => Some(1),
        _ => None,
    }
}

// A drive's words that take no field,
#[tactic(auto, unfolding(crate::specs::Words::is_bare))]
pub fn is_bare(w: Word) -> bool
    ensures { result ≡ is_bare w }
{
    matches!(
        w,
        Word::Store
            | Word::Retire
            | Word::Stop
            | Word::Resume
            | Word::Reset
            | Word::Pointer
            | Word::State
            | Word::New
    )
}

// that take one count,
#[tactic(auto, unfolding(crate::specs::Words::takes_count))]
pub fn takes_count(w: Word) -> bool
    ensures { result ≡ takes_count w }
{
    matches!(w, Word::Slot | Word::Step | Word::NextId)
}

// and that name another word.
#[tactic(auto, unfolding(crate::specs::Words::takes_name))]
pub fn takes_name(w: Word) -> bool
    ensures { result ≡ takes_name w }
{
    matches!(w, Word::Begin | Word::Whole | Word::Poke)
}

// The words that stand first on a line of a drive.
#[tactic(auto, unfolding(crate::specs::Words::drive_form, crate::specs::Words::own_form))]
pub fn drive_form(w: Word) -> Option<u64>
    ensures { result ≡ drive_form w }
{
    match w {
        _ if is_bare(w) => Some(0),
        _ if takes_count(w) => Some(1),
        _ if takes_name(w) => Some(NAME),
        Word::End => Some(7),
        Word::Configure => Some(0x338),
        Word::Interrupt => Some(BULK_FORM),
        _ => session_form(w),
    }
}

// The requests, behind `begin` or `whole`.
#[tactic(auto, unfolding(crate::specs::Words::request_form))]
pub fn request_form(w: Word) -> Option<u64>
    ensures { result ≡ request_form w }
{
    match w {
        Word::Control => Some(CONTROL_FORM),
        Word::Bulk | Word::Interrupt => Some(BULK_FORM),
        Word::Iso => Some(ISO_FORM),
        _ => None,
    }
}

// The tables, behind `poke`.
#[tactic(auto, unfolding(crate::specs::Words::table_form))]
pub fn table_form(w: Word) -> Option<u64>
    ensures { result ≡ table_form w }
{
    match w {
        Word::Ring | Word::Finished => Some(0x61),
        Word::Records | Word::Packets => Some(0x21),
        _ => None,
    }
}

// The form of a word behind another, or as the line's first.
#[tactic(auto, unfolding(crate::specs::Words::form_of, crate::specs::Words::form_behind))]
pub fn form_of(full: bool, before: Option<Word>, w: Word) -> Option<u64>
    ensures { result ≡ form_of full before w }
{
    if !full {
        return session_form(w);
    }
    match before {
        None => drive_form(w),
        Some(Word::Poke) => table_form(w),
        Some(_) => request_form(w),
    }
}

#[tactic(auto, unfolding(crate::specs::Words::is_hex))]
fn is_hex(kind: u64) -> bool
    ensures { result ≡ is_hex kind }
{
    matches!(kind, 2 | 4 | 5 | 6)
}

// The base of a kind's digits, and the largest number of the kind.
#[tactic(auto, unfolding(crate::specs::Words::base_of))]
pub fn base_of(kind: u64) -> u64
    ensures { result ≡ base_of kind }
{
    if is_hex(kind) { 16 } else { 10 }
}

#[tactic(auto, unfolding(crate::specs::Words::most_of))]
pub fn most_of(kind: u64) -> u64
    ensures { result ≡ most_of kind }
{
    match kind {
        3 | 4 => 0xff,
        5 | 8 => 0xffff,
        6 => 0xffff_ffff,
        7 => 1,
        _ => 0xffff_ffff_ffff_ffff,
    }
}

// The form that is left behind a form's first field.
#[tactic(auto, unfolding(crate::specs::Words::rest_of))]
pub fn rest_of(form: u64) -> u64
    ensures { result ≡ rest_of form }
{
    if form == COUNTS { form } else { form / 16 }
}
