// Bytes, digits and numbers put one after another on a page: a buffer with the place that comes next. Any place of any buffer serves,
// and what does not go in is left out.
#![tactic(auto)]

mod packed; // packed.rt: sixteen digits, made eight at a time

ghost use Rattle.std.specs.Prelude.{[], ◌∷◌, ◌≡◌, ◌<◌};
ghost use Rattle.page.specs.Digits.{digit_of, two, eight, decimal};
ghost use Rattle.page.specs.OnPage.{PutOn};

pub use packed::digits;

// A buffer, and the place of its next byte.
#[derive(Drop)]
pub struct Page<'a> {
    pub out: &'a mut [u8],
    pub at: usize,
}

// The lowercase hexadecimal digit of a number.
fn digit(n: usize) -> u8
    requires { n < 16 }
    ensures value { result ≡ digit_of n }
{
    b"0123456789abcdef"[n]
}

impl Page<'_> {
    // Puts a byte.
    pub fn byte(&mut self, byte: u8)
        ensures put { PutOn self.old (byte ∷ []) self.new }
    {
        if self.at < self.out.len() {
            self.out[self.at] = byte;
            self.at += 1;
        }
    }

    // Puts a byte string: at once if it goes in whole. It is inlined, so that sixteen digits are one store.
    #[inline(always)]
    pub fn put(&mut self, bytes: &[u8])
        ensures put { PutOn self.old bytes.now self.new }
    {
        if self.at <= self.out.len() && bytes.len() <= self.out.len() - self.at {
            let end = self.at + bytes.len();
            self.out[self.at..end].copy_from_slice(bytes);
            self.at = end;
            return;
        }
        for &byte in bytes {
            self.byte(byte);
        }
    }

    // Puts the two hexadecimal digits of a number's low byte.
    pub fn two(&mut self, n: usize)
        ensures put { PutOn self.old (two n) self.new }
    {
        self.byte(digit(n / 16 % 16));
        self.byte(digit(n % 16));
    }

    // Puts the eight hexadecimal digits of a number's low four bytes, the high byte first.
    pub fn eight(&mut self, n: usize)
        ensures put { PutOn self.old (eight n) self.new }
    {
        self.two(n >> 24);
        self.two(n >> 16);
        self.two(n >> 8);
        self.two(n);
    }

    // Puts a number in decimal.
    pub fn decimal(&mut self, n: usize)
        ensures put { PutOn self.old (decimal n) self.new }
    {
        if n >= 10 {
            self.decimal(n / 10);
        }
        self.byte(b'0' + (n % 10) as u8);
    }
}
