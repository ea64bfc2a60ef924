// Eight digits in one word: read, valued and packed at once.
ghost use Rattle.std.specs.Prelude.{◌≡◌, ◌+◌, ◌%◌, ◌≤◌, ◌<◌, length, take, drop};
ghost use Rattle.text.specs.Words.{word_of, values_of, pairs_of, quads_of, eight_of, packed_at, four_of, sixteen_of, same_words};

// The word of the four bytes at a place, the first one lowest.
fn four(text: &[u8], at: usize) -> u64
    requires { at + 4 ≤ length text.now }
    ensures value { result ≡ word_of (take 4 (drop at text.now)) }
    ensures range { result < 4294967296 }
{
    u32::from_le_bytes([text[at], text[at + 1], text[at + 2], text[at + 3]]) as u64
}

// The word of the eight bytes at a place.
fn eight(text: &[u8], at: usize) -> u64
    requires { at + 8 ≤ length text.now }
    ensures value { result ≡ word_of (take 8 (drop at text.now)) }
{
    u64::from_le_bytes([
        text[at],
        text[at + 1],
        text[at + 2],
        text[at + 3],
        text[at + 4],
        text[at + 5],
        text[at + 6],
        text[at + 7],
    ])
}

// The number that the digits in a word say.
fn packed(v: u64) -> u64
    ensures value { result ≡ eight_of (quads_of (pairs_of (values_of v))) }
{
    let values = (v & 1085102592571150095) + 9 * ((v & 4629771061636907072) / 64);
    let pairs = (values & 4222189076152335) * 16 + (values & 1080880403494997760) / 256;
    let quads = (pairs & 1095216660735) * 256 + (pairs & 71776119077928960) / 65536;
    quads % 4294967296 * 65536 + quads / 4294967296
}

// What the 4 bytes at a place say, as digits: four digits `0` stand before them, so that they pack as eight.
pub fn four_digits(text: &[u8], at: usize) -> u64
    requires { at + 4 ≤ length text.now }
    ensures value { result ≡ four_of text.now at }
{
    packed(808464432 + 4294967296 * four(text, at)) % 65536
}

// What the 8 bytes at a place say, as digits.
fn half(text: &[u8], at: usize) -> u64
    requires { at + 8 ≤ length text.now }
    ensures value { result ≡ packed_at text.now at % 4294967296 }
    ensures range { result < 4294967296 }
{
    packed(eight(text, at)) % 4294967296
}

// What the 16 bytes at a place say, as digits.
pub fn sixteen(text: &[u8], at: usize) -> u64
    requires { at + 16 ≤ length text.now }
    ensures value { result ≡ sixteen_of text.now at }
{
    half(text, at) * 4294967296 + half(text, at + 8)
}

// Whether the 16 bytes at a place stand there again after them.
pub fn repeats(text: &[u8], at: usize) -> bool
    requires { at + 32 ≤ length text.now }
    ensures value { result ≡ same_words text.now at (at + 16) }
{
    let next = at + 16;
    eight(text, at) == eight(text, next) && eight(text, at + 8) == eight(text, next + 8)
}
