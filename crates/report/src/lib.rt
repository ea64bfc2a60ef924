// The bytes that the tool prints: of a verdict, a fixed word and hexadecimal fields; of a run, why it stopped and its state.
#![tactic(auto)]

mod run;

ghost use Rattle.std.specs.Prelude.{◌≡◌, List, ◌++◌, ℕ, ◌<◌, length, get_or};
ghost use Rattle.page.specs.OnPage.{PutOn};
ghost use Rattle.page.specs.Page.{filled, filled_count};
ghost use Rattle.report.specs.Printed.{three, call_line, violated_word, refused_line, printed};

use page::Page;
pub use run::write_run;
use verdict::Verdict;

// No verdict prints more bytes.
pub const LONGEST: usize = 73737;

// Puts three numbers of two digits, and the line end.
fn put_three(page: &mut Page<'_>, a: usize, b: usize, c: usize)
    ensures put { PutOn page.old (three a b c) page.new }
{
    page.two(a);
    page.byte(b' ');
    page.two(b);
    page.byte(b' ');
    page.two(c);
    page.byte(b'\n'); // each call, and each place of a rule, has its own line
}

// A byte of memory, 0 past its end.
fn byte_at(memory: &[u8], i: usize) -> usize
    ensures value { result ≡ get_or memory.now i 0 }
{
    memory.get(i).copied().unwrap_or(0) as usize
}

// Puts the line of call i.
fn put_call(page: &mut Page<'_>, memory: &[u8], i: usize)
    requires { i < 8192 }
    ensures put { PutOn page.old (call_line memory.now i) page.new }
{
    let caller = byte_at(memory, 3 * i);
    let address = byte_at(memory, 3 * i + 1);
    let callee = byte_at(memory, 3 * i + 2);
    put_three(page, caller, address, callee);
}

// Puts the word and the lines of calls.
fn put_accepted(page: &mut Page<'_>, calls: usize, memory: &[u8])
    ensures put { PutOn page.old (printed (Verdict.Accepted calls) memory.now) page.new }
{
    page.put(b"accepted\n");
    for i in 0..calls.min(8192) {
        put_call(page, memory, i);
    }
}

// Puts the word, a number and its line.
fn put_refused(page: &mut Page<'_>, number: usize, line: usize)
    ensures put { PutOn page.old (refused_line number line) page.new }
{
    page.put(b"refused ");
    page.two(number);
    page.byte(b' ');
    page.eight(line);
    page.byte(b'\n');
}

// Puts the word, the rule and its place.
fn put_violated(page: &mut Page<'_>, rule: usize, method: usize, address: usize)
    ensures put { PutOn page.old (violated_word ++ three rule method address) page.new }
{
    page.put(b"violated ");
    put_three(page, rule, method, address);
}

fn put_verdict(page: &mut Page<'_>, v: Verdict, memory: &[u8])
    ensures put { PutOn page.old (printed v memory.now) page.new }
{
    match v {
        Verdict::Accepted(count) => put_accepted(page, count, memory),
        Verdict::Violated {
            rule,
            method,
            address,
        } => put_violated(page, rule, method, address),
        Verdict::Refused { number, line } => put_refused(page, number, line),
        Verdict::Short => put_refused(page, 23, 0),
    }
}

// How many bytes a verdict prints.
#[tactic(auto, using(crate::proofs::Calls::accepted_length))]
fn size_of(v: Verdict) -> usize
    ensures value { (memory : List ℕ) → result ≡ length (printed v memory) }
{
    match v {
        Verdict::Accepted(count) => 9 + 9 * count.min(8192),
        Verdict::Violated { .. } => 18,
        Verdict::Refused { .. } | Verdict::Short => 20,
    }
}

// Writes what the tool prints of a verdict, whose calls stand in memory, to the front of out, and answers how many bytes that
// are; where they do not fit, it writes nothing and answers 0.
pub fn write(v: Verdict, memory: &[u8], out: &mut [u8]) -> usize
    ensures count { result ≡ filled_count (printed v memory.now) out.old }
    ensures memory { out.new ≡ filled (printed v memory.now) out.old }
{
    if out.len() < size_of(v) {
        return 0;
    }
    let mut page = Page { out, at: 0 };
    put_verdict(&mut page, v, memory);
    page.at
}
