// Panels whose claims are written, by `writer::write_claim`: what is printed of each, the length of the text or the refusal, and a
// checksum of the memory that was lent.
use super::{lent, number, record};
use output::Output;
use std::io::Read;

// More bytes than the longest text has.
const SPACE: usize = 196608;

fn print_refused<R: Print>(rt: &R, number: usize, line: usize) {
    let _ = rt.write_all(b"refused");
    number::print(rt, number as u64, 2);
    number::print(rt, line as u64, 8);
}

// Prints what came of a call.
fn print_output<R: Print>(rt: &R, o: Output) {
    match o {
        Output::Written(count) => {
            let _ = rt.write_all(b"written");
            number::print(rt, count as u64, 8);
        }
        Output::Refused { number, line } => print_refused(rt, number, line),
        Output::Short => print_refused(rt, 23, 0),
    }
    let _ = rt.write_all(b"\n");
}

// Writes the claim of a panel to memory whose bytes are counted; prints what came of it, and the checksum of the memory afterwards.
fn show<R: Print>(rt: &R, program: &[u8], memory: &mut [u8]) {
    lent::count_bytes(&mut *memory);
    print_output(rt, writer::write_claim(program, &mut *memory));
    number::print_first(rt, lent::mix_bytes(memory), 8);
    let _ = rt.write_all(b"\n");
}

// The same in as many bytes as the case asks; false where it asks more than there are.
fn show_case<R: Print>(rt: &R, program: &[u8], size: usize) -> bool {
    if SPACE < size {
        return false;
    }
    let mut memory = [0; SPACE];
    show(rt, program, &mut memory[..size]);
    true
}

// Reads what comes after a panel and shows the case; false, and a line on standard error, where it cannot.
pub fn show_rest<R: Print + Eprint, F: Read>(rt: &R, file: &mut F, program: &[u8]) -> bool {
    let mut rest = [0u8; 4];
    if !record::fill(rt, file, &mut rest) {
        return false;
    }
    if !show_case(rt, program, number::of_bytes(&rest) as usize) {
        record::complain(rt, "too many bytes");
        return false;
    }
    true
}
