// Tries the cases that the second implementation (compare/) wrote into data/: reads texts, then makes runs, checks claims and
// writes claims, and prints for each record what comes of it. What must be printed, the file `stdout`, is what the second implementation answers.
#![tactic(auto)]

use record::Next;
use std::io::Read;
use std::rt::Files;

mod checks;
mod digest;
mod handlers;
mod lent;
mod number;
mod record;
mod runs;
mod texts;
mod writes;

// What the records of a file are: texts to read, runs to make, claims to check, panels whose claims are written.
#[derive(Clone, Copy)]
enum Records {
    Texts,
    Runs,
    Checks,
    Writes,
}

// Tries a record whose text is read and prints its lines; false, and a line on standard error, where it is no record.
fn show_record<R: Print + Eprint, F: Read>(
    rt: &R,
    file: &mut F,
    records: Records,
    text: &[u8],
) -> bool {
    match records {
        Records::Texts => {
            texts::show(rt, text);
            true
        }
        Records::Runs => runs::show_rest(rt, file, text),
        Records::Checks => checks::show_claim(rt, file, text),
        Records::Writes => writes::show_rest(rt, file, text),
    }
}

// The same for the record that comes next in a file.
fn show_next<R: Print + Eprint, F: Read>(rt: &R, file: &mut F, records: Records) -> Next {
    let mut text = [0; record::SPACE];
    let next = record::fill_next(rt, file, &mut text);
    if let Next::Text(size) = next {
        if !show_record(rt, file, records, &text[..size]) {
            return Next::Broken;
        }
    }
    next
}

// The same for every record of a file; false where the file is no sequence of records.
fn show_all<R: Print + Eprint, F: Read>(rt: &R, file: &mut F, records: Records) -> bool {
    for read in 0..record::MOST {
        let next = show_next(rt, file, records);
        if record::left_after(next, record::MOST - read) == 0 {
            return record::is_whole(next);
        }
    }
    true
}

// The same for a file by name; one that cannot be opened has no records.
fn show_file<R: Files + Print + Eprint>(rt: &R, path: &str, records: Records) -> bool {
    match record::open(rt, path) {
        Some(mut file) => show_all(rt, &mut file, records),
        None => true,
    }
}

// The same for all files, as long as they are sequences of records.
fn main(rt: HostRuntime) {
    show_file(&rt, "texts0.bin", Records::Texts)
        && show_file(&rt, "texts1.bin", Records::Texts)
        && show_file(&rt, "texts2.bin", Records::Texts)
        && show_file(&rt, "texts3.bin", Records::Texts)
        && show_file(&rt, "runs0.bin", Records::Runs)
        && show_file(&rt, "runs1.bin", Records::Runs)
        && show_file(&rt, "runs2.bin", Records::Runs)
        && show_file(&rt, "runs3.bin", Records::Runs)
        && show_file(&rt, "checks0.bin", Records::Checks)
        && show_file(&rt, "checks1.bin", Records::Checks)
        && show_file(&rt, "checks2.bin", Records::Checks)
        && show_file(&rt, "checks3.bin", Records::Checks)
        && show_file(&rt, "writes0.bin", Records::Writes)
        && show_file(&rt, "writes1.bin", Records::Writes)
        && show_file(&rt, "writes2.bin", Records::Writes)
        && show_file(&rt, "writes3.bin", Records::Writes);
}
