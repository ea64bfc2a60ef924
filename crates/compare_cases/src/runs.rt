// Runs for the stepper, by `plain::step`: what is printed of each, its answer and a checksum of the memory that it was lent.
use super::{lent, number, record};
use std::io::Read;

// What a case asks for its text: at most so many steps, in so many words of frames, objects and statics.
#[derive(Clone, Copy)]
struct Case {
    steps: u64,
    frames: usize,
    objects: usize,
    statics: usize,
}

// The fourteen bytes after the text.
fn case_of(rest: [u8; 14]) -> Case {
    let steps = number::of_bytes(&rest[0..8]);
    let frames = number::of_bytes(&rest[8..10]) as usize;
    let objects = number::of_bytes(&rest[10..12]) as usize;
    let statics = number::of_bytes(&rest[12..14]) as usize;
    Case {
        steps,
        frames,
        objects,
        statics,
    }
}

fn print_answer<R: Print>(rt: &R, answer: &[u64; 5]) {
    number::print_first(rt, answer[0], 2);
    number::print(rt, answer[1], 8);
    number::print(rt, answer[2], 3);
    number::print(rt, answer[3], 2);
    number::print(rt, answer[4], 3);
}

fn step<R: Print>(
    rt: &R,
    text: &[u8],
    n: u64,
    frames: &mut [u64],
    objects: &mut [u64],
    statics: &mut [u64],
) {
    let mut answer = [0u64; 5];
    let outcome = plain::step(text, n, frames, objects, statics);
    answer::put_outcome(&mut answer, outcome);
    print_answer(rt, &answer);
}

// Runs a case in lent memory and prints its line.
fn show<R: Print>(
    rt: &R,
    text: &[u8],
    n: u64,
    frames: &mut [u64],
    objects: &mut [u64],
    statics: &mut [u64],
) {
    lent::count_words(&mut *frames, 4096);
    lent::count_words(&mut *objects, 8192);
    lent::count_words(&mut *statics, 16384);
    step(rt, text, n, &mut *frames, &mut *objects, &mut *statics);
    let sum = lent::mix_words(objects, lent::mix_words(frames, 0));
    number::print(rt, lent::mix_words(statics, sum), 8);
    let _ = rt.write_all(b"\n");
}

// The same in as many words as the case asks; false where it asks more than the papers' largest memory.
fn show_case<R: Print>(rt: &R, text: &[u8], case: Case) -> bool {
    let f = case.frames;
    let o = case.objects;
    let s = case.statics;
    if 640 < f || 4400 < o || 32 < s {
        return false;
    }
    let mut frames = [0u64; 640];
    let mut objects = [0u64; 4400];
    let mut statics = [0u64; 32];
    show(
        rt,
        text,
        case.steps,
        &mut frames[..f],
        &mut objects[..o],
        &mut statics[..s],
    );
    true
}

// Reads what comes after a text and shows the case; false, and a line on standard error, where it cannot.
pub fn show_rest<R: Print + Eprint, F: Read>(rt: &R, file: &mut F, text: &[u8]) -> bool {
    let mut rest = [0u8; 14];
    if !record::fill(rt, file, &mut rest) {
        return false;
    }
    if !show_case(rt, text, case_of(rest)) {
        record::complain(rt, "too many words");
        return false;
    }
    true
}
