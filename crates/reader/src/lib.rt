// The reader: a program text into tables that the caller lends, or a refusal with its number and line.
#![tactic(auto)]

ghost use Rattle.std.specs.Prelude.{◌≡◌, ℕ, ◌+◌, ◌≤◌, ◌<◌, length, replicate};
ghost use Rattle.text.specs.Hex.{lines_of};
ghost use Rattle.program.specs.Program.{Program, no_program};
ghost use Rattle.program.specs.Tables.{tables_of};
ghost use Rattle.reader.specs.Read.{taken, read_lines, read_program, reading_number, reading_values, tables_after, refusal_number, refusal_line, number_of, values_of, line_of};
ghost use Rattle.reader.specs.Inside.{line_at, framed, framed_tables, Walked, refusal_of};

use frame::{Counts, Step};
use lines::Cursor;
use marks::Stop;
use text::LineRead;

// Why a program text is refused, and at which line; the length has line 0.
#[derive(Clone, Copy, Debug, PartialEq, Eq)]
pub enum Refusal {
    TooLong,
    BadLine(usize),
    BadFrame(usize),
    OutOfOrder(usize),
    BadValue(usize),
    FallsThrough(usize),
}

impl Refusal {
    // Document 01's number of a refusal.
    pub fn number(self) -> u8
        ensures value { result ≡ refusal_number self }
    {
        match self {
            Self::TooLong => 1,
            Self::BadLine(line) => 2,
            Self::BadFrame(line) => 3,
            Self::OutOfOrder(line) => 4,
            Self::BadValue(line) => 5,
            Self::FallsThrough(line) => 6,
        }
    }

    // Its line.
    pub fn line(self) -> usize
        ensures value { result ≡ refusal_line self }
    {
        match self {
            Self::TooLong => 0,
            Self::BadLine(line) => line,
            Self::BadFrame(line) => line,
            Self::OutOfOrder(line) => line,
            Self::BadValue(line) => line,
            Self::FallsThrough(line) => line,
        }
    }
}

// Document 01's number of what became of a text, 0 where it is read.
pub fn number_of(read: Result<(), Refusal>) -> u8
    ensures value { result ≡ number_of read }
{
    match read {
        Ok(()) => 0,
        Err(refusal) => refusal.number(),
    }
}

// The line of its refusal, 0 where it is read.
pub fn line_of(read: Result<(), Refusal>) -> usize
    ensures value { result ≡ line_of read }
{
    match read {
        Ok(()) => 0,
        Err(refusal) => refusal.line(),
    }
}

// Takes the frame of a whole line, or tells why it cannot stand.
fn take_frame(text: &[u8], at: usize, digits: usize, n: Counts, t: &mut [u64; 768]) -> Step
    requires { (2 ≤ digits) × (at + digits < length text.now) }
    ensures value { result ≡ framed (line_at text.now at digits) n }
    ensures memory { t.new ≡ framed_tables (line_at text.now at digits) n t.old }
{
    let kind = frame::kind_of(text::number_at(text, at, 2));
    if digits != frame::digits_of(kind) {
        return Step {
            number: 3,
            counts: n,
        };
    }
    let fields = text::number_at(text, at + 2, digits - 2);
    frame::take(n, kind, fields, t)
}

// Frames, their order and their counts: refusals 2, 3 and 4, by line. The tables hold the program so far.
fn walk(text: &[u8], t: &mut [u64; 768]) -> Stop
    requires { t.old ≡ tables_of no_program }
    ensures read { Walked (read_lines (lines_of text.now) no_program 1) result t.new }
{
    let mut from = Cursor { at: 0, line: 1 };
    let mut n = Counts {
        classes: 0,
        fields: 0,
        statics: 0,
        methods: 0,
        code: 0,
        handlers: 0,
    };
    loop {
        let line = from.line;
        let found = lines::read_line(text, from);
        let read = found.read;
        match read {
            LineRead::End => {
                if frame::may_end(n) {
                    return Stop { number: 0, line };
                }
                return Stop { number: 4, line };
            }
            LineRead::Broken => return Stop { number: 2, line },
            LineRead::Whole(digits) => {
                let step = take_frame(text, from.at, digits, n, &mut *t);
                if step.number != 0 {
                    return Stop {
                        number: step.number,
                        line,
                    };
                }
                n = step.counts;
                from = found.next;
            }
        }
    }
}

// The refusal of a number, 2 to 6.
fn refused_by(number: usize, line: usize) -> Refusal
    ensures value { result ≡ refusal_of number line }
{
    match number {
        2 => Refusal::BadLine(line),
        3 => Refusal::BadFrame(line),
        4 => Refusal::OutOfOrder(line),
        5 => Refusal::BadValue(line),
        _ => Refusal::FallsThrough(line),
    }
}

// Takes a program text into the tables of no program. Read: they hold the program.
fn take(text: &[u8], t: &mut [u64; 768]) -> Result<(), Refusal>
    requires { t.old ≡ tables_of no_program }
    ensures answer { (number_of result ≡ reading_number (read_program text.now)) × (values_of result ≡ reading_values (read_program text.now)) }
    ensures tables { (p : Program) → read_program text.now ≡ taken p → t.new ≡ tables_of p }
{
    if 65536 < text.len() {
        return Err(Refusal::TooLong);
    }
    let order = walk(text, &mut *t);
    if order.number != 0 {
        return Err(refused_by(order.number, order.line));
    }
    let value = marks::first_mark(t);
    if value.number != 0 {
        return Err(refused_by(value.number, value.line));
    }
    Ok(())
}

// Reads a program text. Read: the tables hold the program. Refused: they are as they were.
pub fn read(text: &[u8], t: &mut [u64; 768]) -> Result<(), Refusal>
    ensures answer { (number_of result ≡ reading_number (read_program text.now)) × (values_of result ≡ reading_values (read_program text.now)) }
    ensures memory { t.new ≡ tables_after (read_program text.now) t.old }
{
    let mut draft = [0u64; 768];
    take(text, &mut draft)?;
    *t = draft;
    Ok(())
}

// The same without a draft, for tables of the caller's own. Refused: they are zero.
pub fn fill(text: &[u8], t: &mut [u64; 768]) -> Result<(), Refusal>
    ensures answer { (number_of result ≡ reading_number (read_program text.now)) × (values_of result ≡ reading_values (read_program text.now)) }
    ensures memory { t.new ≡ tables_after (read_program text.now) (replicate 768 0) }
{
    *t = [0u64; 768];
    let read = take(text, &mut *t);
    if read.is_err() {
        *t = [0u64; 768];
    }
    read
}
