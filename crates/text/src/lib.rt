// Lines and hexadecimal digits of a text. Program reader and claim reader both go through these; nothing here knows frames.
#![tactic(auto)]

mod words; // words.rt: eight digits in one word

ghost use Rattle.std.specs.Prelude.{◌≡◌, ◌+◌, ◌-◌, ◌≤◌, min, leb, ltb, length, take, drop};
ghost use Rattle.text.specs.Hex.{digit_of, all_digits, lines_of, line_read_of, number_of, digits_at};
ghost use Rattle.text.specs.Run.{digit_run};
ghost use Rattle.text.specs.Words.{value_of, two_at, four_at, sixteen_at, repeats_at};

// What stands at a place of a text.
// Stays: of three answers each has its own refusal above; `Result<Option<usize>, Broken>` would nest two types for the same three.
#[derive(Clone, Copy)]
pub enum LineRead {
    // A whole line, of so many digits, and its end after them.
    Whole(usize),
    // A line with another byte, an odd digit count, no digit or no end.
    Broken,
    // No line.
    End,
}

// The value of a digit, 16 for any other byte.
#[tactic(auto, unfolding(crate::specs::Hex::digit_of))]
pub fn digit(b: u8) -> u8
    ensures value { result ≡ digit_of b }
{
    match b {
        b'0'..=b'9' => b - b'0',
        b'a'..=b'f' => b - b'a' + 10,
        _ => 16,
    }
}

// Whether a byte is a digit, without a branch.
fn is_digit(b: u8) -> bool
    ensures value { result ≡ ltb (digit_of b) 16 }
{
    (b >= 48) & (b < 58) | (b >= 97) & (b < 103)
}

// Whether the 16 bytes at a place are digits. None is skipped, so that the machine looks at all of them at once.
fn block(text: &[u8], at: usize) -> bool
    requires { at + 16 ≤ length text.now }
    ensures digits { result ≡ all_digits (take 16 (drop at text.now)) }
{
    text[at..at + 16]
        .iter()
        .fold(true, |all, &b| all & is_digit(b))
}

// A place from which on the run at a place ends where it does, after the blocks of digits there.
fn after_blocks(text: &[u8], at: usize) -> usize
    requires { at ≤ length text.now }
    ensures place { (at ≤ result) × (result ≤ length text.now) }
    ensures end { at + digit_run (drop at text.now) ≡ result + digit_run (drop result text.now) }
{
    // Stays: a `for` over `chunks_exact(16)` counts the same place beside the chunks, and std names no list of what those yield.
    let mut i = at;
    while text.len() - i >= 16 && block(text, i) {
        i += 16;
    }
    i
}

// How many digits stand at a place.
fn run(text: &[u8], at: usize) -> usize
    requires { at ≤ length text.now }
    ensures digits { result ≡ digit_run (drop at text.now) }
{
    let i = after_blocks(text, at);
    i - at + text[i..].iter().take_while(|&&b| is_digit(b)).count()
}

// The line that stands at a place.
pub fn line_at(text: &[u8], at: usize) -> LineRead
    ensures line { result ≡ line_read_of (lines_of (drop at text.now)) }
{
    if at >= text.len() {
        return LineRead::End;
    }
    let n = run(text, at);
    if n < text.len() - at && text[at + n] == b'\n' && n != 0 && n % 2 == 0 {
        LineRead::Whole(n)
    } else {
        LineRead::Broken
    }
}

// How many digits a number at a place has: `count`, at most 16, at most what the text has from there on.
fn width(text: &[u8], at: usize, count: usize) -> usize
    ensures least { result ≡ min (min count 16) (length text.now - at) }
{
    count.min(16).min(text.len().saturating_sub(at))
}

// The number of n digits at a place, the high digit first.
fn first(text: &[u8], at: usize, n: usize) -> u64
    requires { (n ≤ length text.now - at) × (n ≤ 16) }
    ensures value { result ≡ number_of (take n (drop at text.now)) }
{
    let mut value: u64 = 0;
    for i in 0..n {
        value = value * 16 + (digit(text[at + i]) % 16) as u64;
    }
    value
}

// The number of at most 16 digits at a place, the high digit first. 16 that are all digits are the common case.
pub fn number_at(text: &[u8], at: usize, count: usize) -> u64
    ensures value { result ≡ number_of (digits_at text.now at count) }
{
    let n = width(text, at, count);
    if n == 16 && block(text, at) {
        return words::sixteen(text, at);
    }
    first(text, at, n)
}

// What a byte says, as a digit.
fn value(b: u8) -> u64
    ensures value { result ≡ value_of b }
{
    (b % 16 + 9 * (b / 64 % 2)) as u64
}

// Whether so many bytes stand at a place.
fn holds(text: &[u8], at: usize, count: usize) -> bool
    ensures value { result ≡ leb count (length text.now - at) }
{
    text.len().saturating_sub(at) >= count
}

// What the 2 bytes at a place say, as digits; 0 where fewer stand there. It does not test them: if both are digits, this is their number.
pub fn two_at(text: &[u8], at: usize) -> u64
    ensures value { result ≡ two_at text.now at }
{
    if holds(text, at, 2) {
        value(text[at]) * 16 + value(text[at + 1])
    } else {
        0
    }
}

// What the 4 bytes at a place say, as digits; 0 where fewer stand there. It does not test them: if all are digits, this is their number.
pub fn four_at(text: &[u8], at: usize) -> u64
    ensures value { result ≡ four_at text.now at }
{
    if holds(text, at, 4) {
        words::four_digits(text, at)
    } else {
        0
    }
}

// What the 16 bytes at a place say, as digits; 0 where fewer stand there. It does not test them: if all are digits, this is their number.
pub fn sixteen_at(text: &[u8], at: usize) -> u64
    ensures value { result ≡ sixteen_at text.now at }
{
    if holds(text, at, 16) {
        words::sixteen(text, at)
    } else {
        0
    }
}

// Whether the 16 bytes at a place stand there again after them.
pub fn repeats(text: &[u8], at: usize) -> bool
    ensures value { result ≡ repeats_at text.now at }
{
    holds(text, at, 32) && words::repeats(text, at)
}
