// Claims for the checker, by `checker::check`: what is printed of each, the lines that the tool prints of the verdict and a checksum
// of the memory that was lent.
use super::record::Next;
use super::{lent, number, record};
use std::io::Read;

// Checks a case in lent memory and prints the verdict.
fn print_verdict<R: Print>(rt: &R, program: &[u8], claim: &[u8], memory: &mut [u8]) {
    let mut out = [0; report::LONGEST];
    let v = checker::check(program, claim, &mut *memory);
    let n = report::write(v, memory, &mut out);
    let _ = rt.write_all(&out[..n]);
}

// The same in memory whose bytes are counted, and the checksum of it afterwards.
fn show<R: Print>(rt: &R, program: &[u8], claim: &[u8], memory: &mut [u8]) {
    lent::count_bytes(&mut *memory);
    print_verdict(rt, program, claim, &mut *memory);
    number::print_first(rt, lent::mix_bytes(memory), 8);
    let _ = rt.write_all(b"\n");
}

// The same in as many bytes as the case asks; false where it asks more than there are.
fn show_case<R: Print>(rt: &R, program: &[u8], claim: &[u8], size: usize) -> bool {
    if record::SPACE < size {
        return false;
    }
    let mut memory = [0; record::SPACE];
    show(rt, program, claim, &mut memory[..size]);
    true
}

// Reads what comes after the two texts and shows the case; false, and a line on standard error, where it cannot.
fn show_rest<R: Print + Eprint, F: Read>(
    rt: &R,
    file: &mut F,
    program: &[u8],
    claim: &[u8],
) -> bool {
    let mut rest = [0u8; 4];
    if !record::fill(rt, file, &mut rest) {
        return false;
    }
    if !show_case(rt, program, claim, number::of_bytes(&rest) as usize) {
        record::complain(rt, "too many bytes");
        return false;
    }
    true
}

// Reads what comes after a program and shows the case.
pub fn show_claim<R: Print + Eprint, F: Read>(rt: &R, file: &mut F, program: &[u8]) -> bool {
    let mut claim = [0; 262200]; // room for the longest claim
    let next = record::fill_next(rt, file, &mut claim);
    match next {
        Next::Text(size) => show_rest(rt, file, program, &claim[..size]),
        Next::End => {
            record::complain(rt, "cut short");
            false
        }
        Next::Broken => false,
    }
}
