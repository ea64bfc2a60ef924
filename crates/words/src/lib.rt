// What verdicts and runs are in words, for people: the words are those that a table has for rules, numbers and faults. Any text is
// a table; a number that it does not have has no words.
#![tactic(auto)]

ghost use Rattle.std.specs.Prelude.{◌≡◌, nat_eq};
ghost use Rattle.std.specs.List.{position};
ghost use Rattle.page.specs.OnPage.{PutOn};
ghost use Rattle.page.specs.Page.{Put};
ghost use Rattle.words.specs.Words.{after_key, line_by, words_for};
ghost use Rattle.words.specs.Told.{place_text, label_text, line_text, placed_text, refused_text, told, halt_told, run_told};

use bounded::Outcome;
use page::Page;
use turn::Halt;
use verdict::Verdict;

// What follows the beginning of the entry of a kind and a number, nothing where there is none.
fn after_key(table: &[u8], kind: u8, number: usize) -> &[u8]
    ensures value { result.now ≡ after_key kind number table.now }
{
    let ten = b'0' + (number / 10 % 10) as u8;
    let one = b'0' + (number % 10) as u8;
    let key = [b'\n', kind, ten, one, b' '];
    for i in 0..table.len() {
        if let Some(words) = table[i..].strip_prefix(&key) {
            return words;
        }
    }
    b""
}

// The place of a text's first line end.
fn line_end(text: &[u8]) -> Option<usize>
    ensures value { result ≡ position (λ byte. nat_eq byte 10) text.now }
{
    text.iter().position(|&byte| byte == b'\n')
}

// The first line of a text, at most 100 bytes of it.
fn first_line(text: &[u8]) -> &[u8]
    ensures value { result.now ≡ line_by 100 text.now }
{
    let line = &text[..text.len().min(100)];
    match line_end(line) {
        Some(end) => &line[..end],
        None => line,
    }
}

// Puts the words of an entry.
fn put_words(page: &mut Page<'_>, table: &[u8], kind: u8, number: usize)
    ensures put { PutOn page.old (words_for table.now kind number) page.new }
{
    page.put(first_line(after_key(table, kind, number)));
}

// Puts a label, a number and a colon.
fn put_label(page: &mut Page<'_>, label: &[u8], shown: usize)
    ensures put { PutOn page.old (label_text label.now shown) page.new }
{
    page.put(label);
    page.decimal(shown);
    page.put(b": ");
}

// Puts a method and an address, and the line end.
fn put_place(page: &mut Page<'_>, method: usize, address: usize)
    ensures put { PutOn page.old (place_text method address) page.new }
{
    page.put(b"; method ");
    page.decimal(method);
    page.put(b", address ");
    page.decimal(address);
    page.byte(b'\n');
}

// Puts a label, a number, its words and a place.
fn put_placed(
    page: &mut Page<'_>,
    table: &[u8],
    label: &[u8],
    kind: u8,
    number: usize,
    method: usize,
    address: usize,
)
    ensures put { PutOn page.old (placed_text table.now label.now kind number method address) page.new }
{
    put_label(page, label, number);
    put_words(page, table, kind, number);
    put_place(page, method, address);
}

// Puts the label of a line, unless it is line 0.
fn put_line(page: &mut Page<'_>, line: usize)
    ensures put { PutOn page.old (line_text line) page.new }
{
    if line != 0 {
        put_label(page, b"line ", line);
    }
}

// Puts a line, unless it is line 0, and the words of a refusal.
fn put_refused(page: &mut Page<'_>, table: &[u8], number: usize, line: usize)
    ensures put { PutOn page.old (refused_text table.now number line) page.new }
{
    put_line(page, line);
    put_words(page, table, b'n', number);
    page.byte(b'\n');
}

// Puts what a verdict is in words.
fn put_verdict(page: &mut Page<'_>, v: Verdict, table: &[u8])
    ensures put { PutOn page.old (told table.now v) page.new }
{
    match v {
        Verdict::Accepted(_) => {}
        Verdict::Violated {
            rule,
            method,
            address,
        } => put_placed(page, table, b"rule ", b'r', rule, method, address),
        Verdict::Refused { number, line } => put_refused(page, table, number, line),
        Verdict::Short => put_refused(page, table, 23, 0),
    }
}

// Puts what a verdict is in words to the front of out, as much as goes in, and answers how many bytes that are.
pub fn tell(v: Verdict, table: &[u8], out: &mut [u8]) -> usize
    ensures words { Put out.old 0 (told table.now v) out.new result }
{
    let mut page = Page { out, at: 0 };
    put_verdict(&mut page, v, table);
    page.at
}

// Puts why a run stopped.
fn put_halt(page: &mut Page<'_>, halt: Halt, method: usize, address: usize, table: &[u8])
    ensures put { PutOn page.old (halt_told table.now halt method address) page.new }
{
    match halt {
        Halt::Done | Halt::Uncaught => {}
        Halt::Faulted(f) => {
            let number = answer::fault_number(f) as usize;
            put_placed(page, table, b"fault ", b'f', number, method, address)
        }
        Halt::FullStore | Halt::FullStack | Halt::StepsMade | Halt::Outside => {
            let number = answer::halt_number(halt) as usize;
            put_placed(page, table, b"stop ", b'n', number, method, address)
        }
    }
}

// Puts what became of a run, whose top frame is at a place, in words.
fn put_run(page: &mut Page<'_>, o: Outcome, method: usize, address: usize, table: &[u8])
    ensures put { PutOn page.old (run_told table.now o method address) page.new }
{
    match o {
        Outcome::Refused { number, line } => put_refused(page, table, number as usize, line),
        Outcome::Short => put_refused(page, table, 23, 0),
        Outcome::Ran { halt, .. } => put_halt(page, halt, method, address, table),
    }
}

// Puts what became of a run, whose top frame is at a place, in words to the front of out, as much as goes in, and answers how many
// bytes that are.
pub fn tell_run(o: Outcome, method: usize, address: usize, table: &[u8], out: &mut [u8]) -> usize
    ensures words { Put out.old 0 (run_told table.now o method address) out.new result }
{
    let mut page = Page { out, at: 0 };
    put_run(&mut page, o, method, address, table);
    page.at
}
