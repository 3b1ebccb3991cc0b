// A page: bytes that are to be written. A full page is written out before the next byte, so that none is left out
// (`nothing_lost`, of the definitions; that `put` flushes there is run). Nobody but `flush` writes.
#![tactic(auto)]

ghost use Rattle.std.specs.Prelude.{◌≡◌, ◌≤◌, ◌∷◌};
ghost use Rattle.page.specs.Page.{put, put_all, decimal_field, hex_field, flag_field, newline};
ghost use Rattle.page.specs.Lent.{shown, loan};

// The descriptor of standard output.
const STDOUT: i32 = 1;

// The bytes that stand on lent ones are written, and none stands there.
pub fn flush(out: &[u8], at: usize) -> usize
    ensures { result ≡ 0 }
{
    let end = at.min(out.len());
    io::write_all(STDOUT, &out[..end]);
    0
}

// Bytes that the caller lends, of which `at` stand on the page. Contracts see the pair of both, and that the loan stays the same, so that the lender
// knows its bytes afterwards.
// No invariant says `at ≤ length bytes`: a page without room counts the byte that it cannot hold.
#[derive(Drop)]
pub struct Page<'a> {
    bytes: &'a mut [u8],
    at: usize,
}

impl<'a> Page<'a> {
    // A page on which nothing stands.
    #[tactic(auto, unfolding(crate::specs::Lent::shown))]
    pub fn new(bytes: &'a mut [u8]) -> Page<'a>
        ensures page { shown result ≡ (0, bytes.old) }
        ensures same_bytes { loan result ≡ bytes.entry.ghost_name }
    {
        Page { bytes, at: 0 }
    }

    // One on which so many bytes stand already.
    #[tactic(auto, unfolding(crate::specs::Lent::shown))]
    pub fn begun(bytes: &'a mut [u8], at: usize) -> Page<'a>
        ensures page { shown result ≡ (at, bytes.old) }
        ensures same_bytes { loan result ≡ bytes.entry.ghost_name }
    {
        Page { bytes, at }
    }

    // How many bytes stand on it.
    #[tactic(auto, unfolding(crate::specs::Lent::shown))]
    pub fn at(&self) -> usize
        ensures { result ≡ (shown self.now).0 }
    {
        self.at
    }

    // The page is over: how many bytes stand on it, and the bytes.
    #[tactic(auto, unfolding(crate::specs::Lent::shown))]
    pub fn into_bytes(self) -> (usize, &'a mut [u8])
        ensures page { (result.0, result.1.now) ≡ shown self.entry }
        ensures same_bytes { result.1.ghost_name ≡ loan self.entry }
    {
        (self.at, self.bytes)
    }

    // What stands on the page is written, and nothing stands there.
    #[tactic(auto, unfolding(crate::specs::Lent::shown))]
    pub fn flush(&mut self)
        ensures page { shown self.new ≡ (0, (shown self.old).1) }
        ensures same_bytes { loan self.new ≡ loan self.old }
    {
        // Under a name of its own: of bytes lent on from behind the page the check does not see that they stay.
        let bytes = &mut *self.bytes;
        self.at = flush(bytes, self.at);
    }

    // One byte.
    #[tactic(auto, unfolding(crate::specs::Page::put, crate::specs::Lent::shown))]
    pub fn put(&mut self, b: u8)
        ensures page { shown self.new ≡ put (shown self.old) b }
        ensures same_bytes { loan self.new ≡ loan self.old }
    {
        if self.at < self.bytes.len() {
            self.bytes[self.at] = b;
            self.at += 1;
            return;
        }
        self.flush();
        if 0 < self.bytes.len() {
            self.bytes[0] = b;
        }
        self.at = 1;
    }

    // Bytes in order.
    #[tactic(auto, unfolding(crate::specs::Page::put_all))]
    pub fn put_text(&mut self, text: &[u8])
        ensures page { shown self.new ≡ put_all (shown self.old) text.now }
        ensures same_bytes { loan self.new ≡ loan self.old }
    {
        for &b in text {
            self.put(b);
        }
    }

    // A newline.
    #[tactic(auto, unfolding(crate::specs::Page::put_all))]
    pub fn put_end(&mut self)
        ensures page { shown self.new ≡ put_all (shown self.old) newline }
        ensures same_bytes { loan self.new ≡ loan self.old }
    {
        self.put(b'\n');
    }

    // A field: a tab, and its text.
    #[tactic(auto, unfolding(crate::specs::Page::put_all))]
    fn put_field(&mut self, text: &[u8])
        ensures page { shown self.new ≡ put_all (shown self.old) (9 ∷ text.now) }
        ensures same_bytes { loan self.new ≡ loan self.old }
    {
        self.put(b'\t');
        self.put_text(text);
    }

    // A number as a field: a tab, and its digits.
    #[tactic(auto, using(crate::proofs::TextLaws::decimal_text), unfolding(crate::specs::Page::decimal_field))]
    pub fn put_decimal(&mut self, n: u64)
        ensures page { shown self.new ≡ put_all (shown self.old) (decimal_field n) }
        ensures same_bytes { loan self.new ≡ loan self.old }
    {
        let mut text = [0u8; 20];
        let k = io::decimal(n, &mut text);
        self.put_field(&text[..k]);
    }

    // The same in hex, of at least so many digits.
    #[tactic(auto, using(crate::proofs::TextLaws::hex_text), unfolding(crate::specs::Page::hex_field))]
    fn put_digits(&mut self, least: usize, n: u64)
        requires { (1 ≤ least) × (least ≤ 16) }
        ensures page { shown self.new ≡ put_all (shown self.old) (hex_field least n) }
        ensures same_bytes { loan self.new ≡ loan self.old }
    {
        let mut text = [0u8; 16];
        let k = io::hex(n, least, &mut text);
        self.put_field(&text[..k]);
    }

    pub fn put_hex(&mut self, n: u64)
        ensures page { shown self.new ≡ put_all (shown self.old) (hex_field 1 n) }
        ensures same_bytes { loan self.new ≡ loan self.old }
    {
        self.put_digits(1, n);
    }

    // A word of 32 bits: eight hex digits.
    pub fn put_word(&mut self, w: u32)
        ensures page { shown self.new ≡ put_all (shown self.old) (hex_field 8 w) }
        ensures same_bytes { loan self.new ≡ loan self.old }
    {
        self.put_digits(8, u64::from(w));
    }

    // A flag is 0 or 1.
    pub fn put_flag(&mut self, b: bool)
        ensures page { shown self.new ≡ put_all (shown self.old) (flag_field b) }
        ensures same_bytes { loan self.new ≡ loan self.old }
    {
        self.put_decimal(u64::from(b));
    }
}

// A text on lent bytes, of which `at` stand already: how many then stand there.
#[tactic(auto, unfolding(crate::specs::Lent::shown))]
pub fn put_lent(out: &mut [u8], at: usize, text: &[u8]) -> usize
    ensures { (result, out.new) ≡ put_all (at, out.old) text.now }
{
    let mut page = Page::begun(out, at);
    page.put_text(text);
    page.at()
}
