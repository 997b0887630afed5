// Text into a buffer that the caller lends, which takes a part of it.
ghost use Rattle.std.specs.Prelude.{◌≡◌, ℕ, min, max, [], ◌∷◌, length};
ghost use Rattle.io.specs.Digits.{last_digits, IsDigitCount};
ghost use Rattle.reads.specs.Reference.{before};
ghost use Rattle.printing.specs.Buffer.{Puts, hex_text, hex_word, decimal_text};

// The buffer, how many bytes of the text to come are passed over, and how many bytes of the buffer are taken.
// Not a `fmt::Write`: what `write!` writes is known only where it answers `Ok`, and texts here are bytes of files, not `str`.
#[derive(Drop)]
pub(crate) struct Out<'a> {
    pub(crate) to: &'a mut [u8],
    pub(crate) skip: usize,
    pub(crate) at: usize,
}

// Bytes into a part of a buffer, which has as many. Not `copy_from_slice`: it calls memmove, and the library for C wants memcpy, memset
// and write alone.
fn copy(to: &mut [u8], from: &[u8])
    requires { length to.old ≡ length from.now }
    ensures { to.new ≡ from.now }
{
    for i in 0..from.len() {
        to[i] = from[i];
    }
}

impl Out<'_> {
    // Of these bytes those after the ones that are passed over, as far as there is room.
    pub(crate) fn bytes(&mut self, s: &[u8])
        ensures { Puts self.old (before s) self.new }
    {
        if s.len() <= self.skip {
            self.skip -= s.len();
            return;
        }
        let left = &s[self.skip..];
        self.skip = 0;
        if self.to.len() <= self.at {
            return;
        }
        let n = left.len().min(self.to.len() - self.at);
        copy(&mut self.to[self.at..self.at + n], &left[..n]);
        self.at += n;
    }

    // A byte.
    pub(crate) fn byte(&mut self, b: u8)
        ensures { Puts self.old (b ∷ []) self.new }
    {
        self.bytes(&[b]);
    }

    // A number in lower-case hex, of so many digits at least, zeros in front.
    fn hex_digits(&mut self, n: u64, width: usize)
        ensures { (k : ℕ) × IsDigitCount 16 (min (max width 1) 16) n k × Puts self.old (last_digits 16 k n) self.new }
    {
        let mut text = [0u8; 16];
        let k = io::hex(n, width, &mut text);
        self.bytes(&text[..k]);
    }

    // A number in lower-case hex.
    pub(crate) fn hex(&mut self, n: u64)
        ensures { Puts self.old (hex_text n) self.new }
    {
        self.hex_digits(n, 1);
    }

    // A word's sixteen digits in lower-case hex, zeros in front.
    fn hex_word(&mut self, n: u64)
        ensures { Puts self.old (hex_word n) self.new }
    {
        self.hex_digits(n, 16);
    }

    // A number of 128 bits in lower-case hex.
    pub(crate) fn hex_of_128(&mut self, n: u128)
        ensures { Puts self.old (hex_text n) self.new }
    {
        let high = (n >> 64) as u64;
        let low = (n % 0x1_0000_0000_0000_0000) as u64;
        if high == 0 {
            return self.hex(low);
        }
        self.hex(high);
        self.hex_word(low);
    }

    // A number in decimal.
    pub(crate) fn decimal(&mut self, n: u64)
        ensures { Puts self.old (decimal_text n) self.new }
    {
        let mut text = [0u8; 20];
        let k = io::decimal(n, &mut text);
        self.bytes(&text[..k]);
    }
}
