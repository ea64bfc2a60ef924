// The claim text: a claim's masks into words that the caller lends, or a refusal with its number and line.
#![tactic(auto)]

pub mod due; // due.rt: the frames due
mod line; // line.rt: one line
mod walk; // walk.rt: line after line

ghost use Rattle.std.specs.Prelude.{◌≡◌, List, ℕ};
ghost use Rattle.program.specs.Tables.{program_in};
ghost use Rattle.slots.specs.Layout.{no_masks};
ghost use Rattle.claim.specs.ReadClaim.{taken, read_claim, reading_number, reading_values, masks_after, refusal_number, refusal_line, number_of, values_of, line_of};
ghost use Rattle.claim.specs.Inside.{refusal_of};

use lines::Cursor;

// Why a claim text is refused, and at which line; the length has line 0.
#[derive(Clone, Copy, Debug, PartialEq, Eq)]
pub enum Refusal {
    TooLong,
    BadLine(usize),
    UnknownKind(usize),
    NotDue(usize),
    BadBit(usize),
}

impl Refusal {
    // Document 01's number of a refusal.
    pub fn number(self) -> u8
        ensures value { result ≡ refusal_number self }
    {
        match self {
            Self::TooLong => 9,
            Self::BadLine(line) => 10,
            Self::UnknownKind(line) => 11,
            Self::NotDue(line) => 12,
            Self::BadBit(line) => 13,
        }
    }

    // Its line.
    pub fn line(self) -> usize
        ensures value { result ≡ refusal_line self }
    {
        match self {
            Self::TooLong => 0,
            Self::BadLine(line) => line,
            Self::UnknownKind(line) => line,
            Self::NotDue(line) => line,
            Self::BadBit(line) => line,
        }
    }
}

// The parts of a claim text, one for each kind of frame.
#[derive(Clone, Copy)]
pub enum Part {
    Address,
    Field,
    Static,
    Returned,
    Leaving,
}

// A frame that is due: its kind, the digits before its masks, how many registers' masks it has before the last one, the last one's
// place, and the bits that its masks may have.
#[derive(Clone, Copy)]
pub struct Frame {
    pub kind: u64,
    pub head: usize,
    pub registers: usize,
    pub last: usize,
    pub allowed: u64,
}

// How a walk by line stands: the number of a refusal or 0, and the cursor of the line that it is at.
#[derive(Clone, Copy)]
pub struct Status {
    pub number: usize,
    pub place: Cursor,
}

// Document 01's number of what became of a text, 0 where it is read.
pub fn number_of(read: Result<(), Refusal>) -> u8
    ensures value { result ≡ number_of read }
{
    match read {
        Ok(()) => 0,
        Err(refusal) => refusal.number(),
    }
}

// The line of its refusal, 0 where it is read.
pub fn line_of(read: Result<(), Refusal>) -> usize
    ensures value { result ≡ line_of read }
{
    match read {
        Ok(()) => 0,
        Err(refusal) => refusal.line(),
    }
}

// The refusal of a number, 10 to 13.
fn refused_by(number: usize, line: usize) -> Refusal
    ensures value { result ≡ refusal_of number line }
{
    match number {
        10 => Refusal::BadLine(line),
        11 => Refusal::UnknownKind(line),
        12 => Refusal::NotDue(line),
        _ => Refusal::BadBit(line),
    }
}

// Takes a claim text into words of no mask. Read: the words hold the claim.
fn take(t: &[u64; 768], text: &[u8], w: &mut [u64; 9712]) -> Result<(), Refusal>
    requires { w.old ≡ no_masks }
    ensures answer { let reading = read_claim (program_in t.now) text.now in
        (number_of result ≡ reading_number reading) × (values_of result ≡ reading_values reading) }
    ensures masks { let reading = read_claim (program_in t.now) text.now in
        ((ms : List ℕ) → reading ≡ taken ms → w.new ≡ ms) }
{
    if 262144 < text.len() {
        return Err(Refusal::TooLong);
    }
    let end = walk::take_parts(t, text, &mut *w);
    let place = end.place;
    if end.number != 0 {
        return Err(refused_by(end.number, place.line));
    }
    let more = walk::after_last(text, place);
    if more != 0 {
        return Err(refused_by(more, place.line));
    }
    Ok(())
}

// Reads a claim text for the program in tables. Read: the words hold the claim. Refused: they are as they were.
pub fn read(t: &[u64; 768], text: &[u8], w: &mut [u64; 9712]) -> Result<(), Refusal>
    ensures answer { let reading = read_claim (program_in t.now) text.now in
        (number_of result ≡ reading_number reading) × (values_of result ≡ reading_values reading) }
    ensures memory { let reading = read_claim (program_in t.now) text.now in
        w.new ≡ masks_after reading w.old }
{
    let mut draft = [0u64; 9712];
    take(t, text, &mut draft)?;
    *w = draft;
    Ok(())
}

// The same without a draft, for words of the caller's own. Refused: they hold no mask.
pub fn fill(t: &[u64; 768], text: &[u8], w: &mut [u64; 9712]) -> Result<(), Refusal>
    ensures answer { let reading = read_claim (program_in t.now) text.now in
        (number_of result ≡ reading_number reading) × (values_of result ≡ reading_values reading) }
    ensures memory { let reading = read_claim (program_in t.now) text.now in
        w.new ≡ masks_after reading no_masks }
{
    *w = [0u64; 9712];
    let read = take(t, text, &mut *w);
    if read.is_err() {
        *w = [0u64; 9712];
    }
    read
}
