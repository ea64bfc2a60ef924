// Files of records. A record starts with a text: its length in four bytes, the high byte first, and so many bytes.
ghost use Rattle.std.specs.Prelude.{◌≡◌, ◌-◌, ◌≤◌};
ghost use Rattle.compare_cases.specs.Records.{Filled, left_after, whole};

use super::number;
use std::fs;
use std::io::Read;
use std::rt::Files;

// What comes next in a file: a text of so many bytes, the end, or what is no record.
#[derive(Clone, Copy)]
pub enum Next {
    Text(usize),
    End,
    Broken,
}

// How many records of a file are read at most.
pub const MOST: usize = 65536;

// Opens a file for reading; none, and a line on standard error, where it cannot be opened.
pub fn open<R: Files + Eprint>(rt: &R, path: &str) -> Option<R::File> {
    match fs::open(rt, path) {
        Ok(file) => Some(file),
        Err(error) => {
            let _ = eprintln!(rt; "{path}: {error}");
            None
        }
    }
}

// How many records may be left to read after this one, where so many were before it.
pub fn left_after(next: Next, left: usize) -> usize
    ensures value { result ≡ left_after next left }
    ensures fewer { result ≤ left - 1 }
{
    match next {
        Next::Text(_) => left.saturating_sub(1),
        Next::End | Next::Broken => 0,
    }
}

// Whether a file whose last record was this one is whole.
pub fn is_whole(next: Next) -> bool
    ensures value { result ≡ whole next }
{
    !matches!(next, Next::Broken)
}

// Says on standard error what is wrong with a record.
pub fn complain<R: Eprint>(rt: &R, what: &str) {
    let _ = rt.eprintln(what);
}

// As many bytes as the longest text has, or more.
pub const SPACE: usize = 65600;

// Fills the buffer; false, and a line on standard error, where the file is too short.
pub fn fill<R: Eprint, F: Read>(rt: &R, file: &mut F, buffer: &mut [u8]) -> bool {
    let n = input::fill(file, &mut *buffer).count;
    if n < buffer.len() {
        complain(rt, "cut short");
        return false;
    }
    true
}

fn fill_sized<R: Eprint, F: Read>(rt: &R, file: &mut F, size: usize, buffer: &mut [u8]) -> Next
    ensures { Filled result buffer.new }
{
    if buffer.len() < size {
        complain(rt, "too long");
        return Next::Broken;
    }
    if fill(rt, file, &mut buffer[..size]) {
        Next::Text(size)
    } else {
        Next::Broken
    }
}

// Fills the start of the buffer with the text that comes next.
pub fn fill_next<R: Eprint, F: Read>(rt: &R, file: &mut F, buffer: &mut [u8]) -> Next
    ensures { Filled result buffer.new }
{
    let mut head = [0u8; 4];
    let n = input::fill(file, &mut head).count;
    if n == 0 {
        return Next::End;
    }
    if n < 4 {
        complain(rt, "cut short");
        return Next::Broken;
    }
    fill_sized(rt, file, number::of_bytes(&head) as usize, buffer)
}
