// Texts for the reader: what is printed of each, a refusal with its number and line, or the counts of the program in the tables, a
// checksum of it and one of its handlers' search.
use super::{digest, handlers, number};
use frame::Kind;

fn refused<R: Print>(rt: &R, n: u64, at: usize) {
    let _ = rt.write_all(b"refused");
    number::print(rt, n, 2);
    number::print(rt, at as u64, 8);
}

fn taken<R: Print>(rt: &R, t: &[u64; 768]) {
    let _ = rt.write_all(b"read");
    number::print(rt, program::class_count(t) as u64, 2);
    number::print(rt, program::field_count(t) as u64, 2);
    number::print(rt, program::static_count(t) as u64, 2);
    number::print(rt, program::method_count(t) as u64, 2);
    number::print(rt, digest::total(t, Kind::Code), 4);
    number::print(rt, digest::total(t, Kind::Handler), 4);
    number::print(rt, digest::checksum(t), 8);
    number::print(rt, handlers::checksum(t), 8);
}

// Reads a text into the tables and prints its line.
fn show_by<R: Print>(rt: &R, text: &[u8], t: &mut [u64; 768]) {
    match reader::read(text, &mut *t) {
        Ok(()) => taken(rt, t),
        Err(refusal) => refused(rt, refusal.number() as u64, refusal.line()),
    }
    let _ = rt.write_all(b"\n");
}

// The same in tables of its own.
pub fn show<R: Print>(rt: &R, text: &[u8]) {
    let mut t = [0u64; 768];
    show_by(rt, text, &mut t);
}
