// Files by name. What is said of them goes to `told`, and the system's reason to standard error.
ghost use Rattle.std.specs.Prelude.{IfOk};
ghost use Rattle.io.specs.Counts.{IsPrefixLen};

use std::io::{Cursor, Write};
use std::rt::Files;
use std::{fs, io, str};

// What the system says of an error, without the number that std writes after it.
fn reason<'a>(error: io::Error, room: &'a mut [u8]) -> &'a str {
    let mut cursor = Cursor::new(&mut *room);
    let _ = write!(cursor, "{error}");
    let text = str::from_utf8(room).unwrap_or("");
    let line = text.trim_end_matches('\0');
    match line.split_once(" (os error ") {
        Some((words, _)) => words,
        None => line,
    }
}

// Says on standard error why the system refused what has this name.
pub fn fail<R: Eprint>(rt: &R, name: &[u8], error: io::Error) {
    let mut room = [0u8; 512];
    let words = reason(error, &mut room);
    let _ = match str::from_utf8(name) {
        Ok(text) => eprintln!(rt; "{text}: {words}"),
        Err(_) => eprintln!(rt; "{}: {words}", name.escape_ascii()),
    };
}

// Opens a file for reading. Its name must be text.
fn open<R: Files>(rt: &R, path: &[u8]) -> io::Result<R::File> {
    match str::from_utf8(path) {
        Ok(name) => fs::open(rt, name),
        Err(_) => Err(io::Error::new(io::ErrorKind::InvalidInput, "the name is not UTF-8")),
    }
}

// Reads a file to the start of the buffer, as much of it as goes in: how many bytes, or the error of a read that failed, which is said.
// A file that cannot be opened is said, and empty.
pub fn read_file<R: Files + Eprint, T: Print>(
    rt: &R,
    path: &[u8],
    buffer: &mut [u8],
    told: &T,
) -> io::Result<usize>
    ensures bytes { IfOk result (λ n. IsPrefixLen n buffer.new) }
{
    let mut file = match open(rt, path) {
        Ok(file) => file,
        Err(error) => {
            fail(rt, path, error);
            let _ = told.write_all(b"a file that cannot be opened counts as empty\n");
            return Ok(0);
        }
    };
    let input = input::fill(&mut file, buffer);
    if let Some(error) = input.error {
        fail(rt, path, error);
        let _ = told.write_all(b"nothing is printed where a file cannot be read\n");
        return Err(error);
    }
    Ok(input.count)
}
