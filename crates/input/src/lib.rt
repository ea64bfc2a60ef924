// Bytes that a reader gives, read to the start of a buffer.
#![tactic(auto)]

ghost use Rattle.std.specs.Prelude.{◌≡◌, ◌<◌, length, take, IsNone};
ghost use Rattle.std.specs.Io.KnownBytes.{Consumes, IsAtEnd};
ghost use Rattle.io.specs.Counts.{IsPrefixLen};

use std::io;
use std::io::Read;

// What came of it: so many bytes at the start of the buffer, and the error where a read failed.
#[derive(Clone, Copy)]
pub struct Input {
    pub count: usize,
    pub error: Option<io::Error>,
}

// Reads until the buffer is full, the reader ends or a read fails. The bytes at the start of the buffer are those that the reader had
// next, and it had no more where no read failed and the buffer is not full.
pub fn fill<R: Read>(reader: &mut R, buffer: &mut [u8]) -> Input
    ensures count { IsPrefixLen result.count buffer.new }
    ensures bytes { Consumes (R.remaining reader.old) (R.remaining reader.new) (take result.count buffer.new) }
    ensures end { IsNone result.error → result.count < length buffer.new → IsAtEnd (R.remaining reader.new) }
{
    let mut at = 0;
    while at < buffer.len() {
        match reader.read(&mut buffer[at..]) {
            Ok(0) => {
                return Input {
                    count: at,
                    error: None,
                };
            }
            Ok(n) => at += n,
            Err(error) => {
                return Input {
                    count: at,
                    error: Some(error),
                };
            }
        }
    }
    Input {
        count: at,
        error: None,
    }
}
