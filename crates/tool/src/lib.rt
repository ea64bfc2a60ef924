// The tool: what its command line asks, on files and standard output. What is printed and told is decided by `response`; words for
// people go to `told`, which the caller names, and what the system says of an error to standard error.
#![tactic(auto)]

mod files;

ghost use Rattle.io.specs.Counts.{IsPrefixLen};

use command::Command;
use files::{fail, read_file};
use response::Response;
use std::env::FillError;
use std::rt::{Env, Files};

// One byte more than a file may have.
const SPACE: usize = 65537;

// Writes bytes to standard output. A write that fails is said on standard error.
fn print<R: Print + Eprint>(rt: &R, bytes: &[u8]) {
    if let Err(error) = rt.write_all(bytes) {
        fail(rt, b"standard output", error);
    }
}

// Prints what is answered, and tells it in words.
fn give<R: Print + Eprint, T: Print>(
    rt: &R,
    response: Response,
    out: &[u8],
    words: &[u8],
    told: &T,
) {
    print(rt, &out[..response.printed.min(out.len())]);
    let _ = told.write_all(&words[..response.told.min(words.len())]);
}

// Prints the verdict on two texts and, if asked, tells it in words.
fn answer_claim<R: Print + Eprint, T: Print>(
    rt: &R,
    panel: &[u8],
    claim: &[u8],
    tell: bool,
    told: &T,
) {
    let mut out = [0; report::LONGEST];
    let mut words = [0; 256];
    let table = phrases::table();
    let response = response::of_claim(panel, claim, &table, &mut out, &mut words);
    let told_words: &[u8] = if tell { &words } else { b"" };
    give(rt, response, &out, told_words, told);
}

// Prints what becomes of a panel in at most so many steps, and tells it in words.
fn answer_run<R: Print + Eprint, T: Print>(rt: &R, panel: &[u8], steps: u64, told: &T) {
    let mut out = [0; report::LONGEST];
    let mut words = [0; 256];
    let table = phrases::table();
    let response = response::of_run(panel, steps, &table, &mut out, &mut words);
    give(rt, response, &out, &words, told);
}

// Prints the claim of a panel, or its refusal, which it tells in words.
fn answer_panel<R: Print + Eprint, T: Print>(rt: &R, panel: &[u8], told: &T) {
    let mut out = [0; 165936]; // the longest claim
    let mut words = [0; 256];
    let table = phrases::table();
    let response = response::of_panel(panel, &table, &mut out, &mut words);
    give(rt, response, &out, &words, told);
}

// Checks two files.
fn check<R: Files + Print + Eprint, T: Print>(
    rt: &R,
    panel_name: &[u8],
    claim_name: &[u8],
    tell: bool,
    told: &T,
) {
    let mut panel = [0; SPACE];
    let mut claim = [0; SPACE];
    if let Ok(n) = read_file(rt, panel_name, &mut panel, told)
        && let Ok(k) = read_file(rt, claim_name, &mut claim, told)
    {
        answer_claim(rt, &panel[..n], &claim[..k], tell, told);
    }
}

// Runs a file.
fn step<R: Files + Print + Eprint, T: Print>(rt: &R, steps: u64, panel_name: &[u8], told: &T) {
    let mut panel = [0; SPACE];
    if let Ok(n) = read_file(rt, panel_name, &mut panel, told) {
        answer_run(rt, &panel[..n], steps, told);
    }
}

// Writes the claim of a file.
fn claim<R: Files + Print + Eprint, T: Print>(rt: &R, panel_name: &[u8], told: &T) {
    let mut panel = [0; SPACE];
    if let Ok(n) = read_file(rt, panel_name, &mut panel, told) {
        answer_panel(rt, &panel[..n], told);
    }
}

fn help<R: Print + Eprint>(rt: &R) {
    print(
        rt,
        b"hudzmoke                      prints the verdict on claim.txt, a claim about panel.txt, both in this folder\n\
        hudzmoke check PANEL CLAIM    the same for two files by name; what is wrong is told in words on standard error\n\
        hudzmoke step N [PANEL]       runs PANEL, or panel.txt, for at most N steps and prints how that ended and the state\n\
        hudzmoke claim [PANEL]        prints the least claim about PANEL, or panel.txt, that is accepted\n\
        hudzmoke help                 prints this, as --help and -h do\n\
        Numbers are printed in hexadecimal and told in decimal. docs/FORMATS.md says what each printed line means.\n",
    );
}

fn usage<T: Print>(told: &T) {
    let _ = told.write_all(
        b"usage: hudzmoke [check PANEL CLAIM | step N [PANEL] | claim [PANEL] | help]\n",
    );
}

// How many words stand on the command line after the program's name.
fn word_count<R: Env>(rt: &R) -> usize {
    let mut room = [0];
    for i in 1..usize::MAX {
        if let Err(FillError::NotPresent) = rt.arg(i, &mut room) {
            return i - 1;
        }
    }
    usize::MAX
}

// Does what so many words ask, of which these are the first three.
pub fn obey<R: Files + Print + Eprint, T: Print>(
    rt: &R,
    count: usize,
    first: &[u8],
    second: &[u8],
    third: &[u8],
    told: &T,
) {
    match command::command_of(count, first, second) {
        Command::Plain => check(rt, b"panel.txt", b"claim.txt", false, told),
        Command::Check => check(rt, second, third, true, told),
        Command::Step {
            steps,
            named: false,
        } => step(rt, steps, b"panel.txt", told),
        Command::Step { steps, named: true } => step(rt, steps, third, told),
        Command::Claim { named: false } => claim(rt, b"panel.txt", told),
        Command::Claim { named: true } => claim(rt, second, told),
        Command::Help => help(rt),
        Command::Unknown => usage(told),
    }
}

// As many bytes as a word of the command line can have.
const LONGEST_WORD: usize = 131072;

// Word i of the command line at the start of a buffer: how many bytes it has, 0 where there is none or it does not go in.
fn fill_word<R: Env>(rt: &R, i: usize, buffer: &mut [u8]) -> usize
    ensures count { IsPrefixLen result buffer.new }
{
    rt.arg(i, buffer).unwrap_or(0)
}

// Does what the command line asks. The first word's buffer is longer than every command; one that does not go in is none.
pub fn run<R: Files + Env + Print + Eprint, T: Print>(rt: &R, told: &T) {
    let mut first = [0; 16];
    let n = fill_word(rt, 1, &mut first);
    let mut second = [0; LONGEST_WORD];
    let k = fill_word(rt, 2, &mut second);
    let mut third = [0; LONGEST_WORD];
    let j = fill_word(rt, 3, &mut third);
    obey(
        rt,
        word_count(rt),
        &first[..n],
        &second[..k],
        &third[..j],
        told,
    );
}
