// The walk by line: the frames due, in their order, each taken where the walk stands.
ghost use Rattle.std.specs.Prelude.{◌≡◌, drop};
ghost use Rattle.text.specs.Hex.{lines_of};
ghost use Rattle.program.specs.Lists.{joined};
ghost use Rattle.program.specs.Tables.{program_in};
ghost use Rattle.claim.specs.Frames.{inner, frame_at, part_due, frames_due};
ghost use Rattle.claim.specs.ReadClaim.{reached, take_frame, take_frames};
ghost use Rattle.claim.specs.Inside.{due_at, Placed, progress_of, last_number};

use super::{Part, Status, due, line};
use lines::Cursor;
use text::LineRead;

// Takes the line where the walk stands as the frame at these two numbers.
fn take_frame(
    t: &[u64; 768],
    text: &[u8],
    from: Status,
    k: Part,
    a: usize,
    b: usize,
    w: &mut [u64; 9712],
) -> Status
    requires { Placed from text.now }
    ensures place { Placed result text.now }
    ensures progress { let p = program_in t.now in
        let bytes = text.now in
        progress_of bytes result w.new ≡ take_frame p (due_at p k a b) (progress_of bytes from w.old) }
{
    if from.number != 0 {
        return from;
    }
    let place = from.place;
    let found = lines::read_line(text, place);
    let read = found.read;
    match read {
        LineRead::End => return Status { number: 12, place },
        LineRead::Broken => return Status { number: 10, place },
        LineRead::Whole(digits) => {
            let number = line::take_line(t, text, place.at, digits, k, a, b, w);
            if number != 0 {
                return Status { number, place };
            }
            let place = found.next;
            Status { number: 0, place }
        }
    }
}

// Takes the frame at these two numbers, if there is one.
fn take_at(
    t: &[u64; 768],
    text: &[u8],
    from: Status,
    k: Part,
    a: usize,
    b: usize,
    w: &mut [u64; 9712],
) -> Status
    requires { Placed from text.now }
    ensures place { Placed result text.now }
    ensures progress { let p = program_in t.now in
        let bytes = text.now in
        progress_of bytes result w.new ≡ take_frames p (frame_at p k a b) (progress_of bytes from w.old) }
{
    if due::present(t, k, a, b) {
        return take_frame(t, text, from, k, a, b, w);
    }
    from
}

// Takes the frames of a part at its first number.
fn take_row(
    t: &[u64; 768],
    text: &[u8],
    from: Status,
    k: Part,
    a: usize,
    w: &mut [u64; 9712],
) -> Status
    requires { Placed from text.now }
    ensures place { Placed result text.now }
    ensures progress { let p = program_in t.now in
        let bytes = text.now in
        progress_of bytes result w.new
        ≡ take_frames p (joined (inner p k a) (frame_at p k a)) (progress_of bytes from w.old) }
{
    let n = due::inner(t, k, a);
    let mut to = from;
    for b in 0..n {
        to = take_at(t, text, to, k, a, b, &mut *w);
    }
    to
}

// Takes the frames of a part.
fn take_part(t: &[u64; 768], text: &[u8], from: Status, k: Part, w: &mut [u64; 9712]) -> Status
    requires { Placed from text.now }
    ensures place { Placed result text.now }
    ensures progress { let p = program_in t.now in
        let bytes = text.now in
        progress_of bytes result w.new ≡ take_frames p (part_due p k) (progress_of bytes from w.old) }
{
    let n = due::outer(t, k);
    let mut to = from;
    for a in 0..n {
        to = take_row(t, text, to, k, a, &mut *w);
    }
    to
}

// Takes all frames due.
pub fn take_parts(t: &[u64; 768], text: &[u8], w: &mut [u64; 9712]) -> Status
    ensures progress { let p = program_in t.now in
        let bytes = text.now in
        progress_of bytes result w.new ≡ take_frames p (frames_due p) (reached (lines_of bytes) 1 w.old) }
{
    let start = Status {
        number: 0,
        place: Cursor { at: 0, line: 1 },
    };
    let addresses = take_part(t, text, start, Part::Address, &mut *w);
    let fields = take_part(t, text, addresses, Part::Field, &mut *w);
    let statics = take_part(t, text, fields, Part::Static, &mut *w);
    let returned = take_part(t, text, statics, Part::Returned, &mut *w);
    take_part(t, text, returned, Part::Leaving, w)
}

// The refusal's number of the line after the frames due: 0 where there is no line.
pub fn after_last(text: &[u8], place: Cursor) -> usize
    ensures value { result ≡ last_number (lines_of (drop place.at text.now)) }
{
    let found = lines::read_line(text, place);
    let read = found.read;
    match read {
        LineRead::End => 0,
        LineRead::Broken => 10,
        LineRead::Whole(digits) => line::other_number(text, place.at),
    }
}
