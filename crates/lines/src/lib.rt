// A reader of lines: a text, a place in it and the number of the line there. Program reader and claim reader both go through it.
// `read_line` stands above its methods with plain parameters.
#![tactic(auto)]

ghost use Rattle.std.specs.Prelude.{◌≡◌, drop};
ghost use Rattle.text.specs.Hex.{lines_of, line_read_of};
ghost use Rattle.lines.specs.Cursors.{cursor, past, cursor_of, reader_at, found_at};

use text::LineRead;

// A text, the place in it where the next line begins, and that line's number.
#[derive(Clone, Copy)]
pub struct LineReader<'a> {
    pub text: &'a [u8],
    pub at: usize,
    pub line: usize,
}

// The same without the text.
#[derive(Clone, Copy)]
pub struct Cursor {
    pub at: usize,
    pub line: usize,
}

// What stands at a cursor, and the cursor after it.
#[derive(Clone, Copy)]
pub struct Found {
    pub read: LineRead,
    pub next: Cursor,
}

impl Cursor {
    // The cursor after what was read here: past a whole line and its end, one line on; else the same.
    fn past(self, read: LineRead) -> Self
        ensures value { result ≡ past self read }
    {
        match read {
            LineRead::Whole(digits) => Cursor {
                at: self.at.wrapping_add(digits).wrapping_add(1),
                line: self.line.wrapping_add(1),
            },
            LineRead::Broken | LineRead::End => self,
        }
    }
}

impl<'a> LineReader<'a> {
    // The reader of a text at a cursor.
    pub fn new(text: &'a [u8], from: Cursor) -> Self
        ensures reader { result ≡ reader_at text.entry from }
    {
        LineReader {
            text,
            at: from.at,
            line: from.line,
        }
    }

    // The line that stands there.
    pub fn peek(self) -> LineRead
        ensures line { result ≡ line_read_of (lines_of (drop self.entry.at self.entry.text.now)) }
    {
        text::line_at(self.text, self.at)
    }

    // The reader after a line that was read.
    pub fn advance(self, read: LineRead) -> Self
        ensures reader { result ≡ reader_at self.entry.text (past (cursor_of self.entry) read) }
    {
        Self::new(self.text, self.place().past(read))
    }

    // Where a reader stands.
    pub fn place(self) -> Cursor
        ensures place { result ≡ cursor_of self.entry }
    {
        Cursor {
            at: self.at,
            line: self.line,
        }
    }
}

// The line at a cursor of a text, and the cursor after it.
pub fn read_line(text: &[u8], from: Cursor) -> Found
    ensures line { result ≡ found_at text.now from }
{
    let reader = LineReader::new(text, from);
    let read = reader.peek();
    let next = reader.advance(read).place();
    Found { read, next }
}
