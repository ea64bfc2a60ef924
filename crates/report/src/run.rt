// What is printed of a run: why it stopped, and the state that it left.
ghost use Rattle.std.specs.Prelude.{◌++◌};
ghost use Rattle.page.specs.OnPage.{PutOn};
ghost use Rattle.page.specs.Page.{Put};
ghost use Rattle.program.specs.Tables.{program_in};
ghost use Rattle.bounded.specs.Step.{pending_values};
ghost use Rattle.report.specs.Run.{pending_text, count_text, numbered_text, halt_text, printed_run};

use crate::put_refused;
use bounded::Outcome;
use page::Page;
use turn::Halt;

// Puts the pending object, if there is one.
fn put_pending(page: &mut Page<'_>, pending: Option<u32>)
    ensures put { PutOn page.old (pending_text (pending_values pending)) page.new }
{
    if let Some(o) = pending {
        page.byte(b' ');
        page.two(o as usize);
    }
}

// Puts the steps made, the pending object, and the line end.
fn put_count(page: &mut Page<'_>, steps: u64, pending: Option<u32>)
    ensures put { PutOn page.old (count_text steps (pending_values pending)) page.new }
{
    page.eight(steps as usize);
    put_pending(page, pending);
    page.byte(b'\n');
}

// Puts a word, and the steps made.
fn put_counted(page: &mut Page<'_>, word: &[u8], steps: u64, pending: Option<u32>)
    ensures put { PutOn page.old (word.now ++ count_text steps (pending_values pending)) page.new }
{
    page.put(word);
    put_count(page, steps, pending);
}

// Puts a word and a number, and the steps made.
fn put_numbered(page: &mut Page<'_>, word: &[u8], number: usize, steps: u64, pending: Option<u32>)
    ensures put { PutOn page.old (numbered_text word.now number steps (pending_values pending)) page.new }
{
    page.put(word);
    page.two(number);
    page.byte(b' ');
    put_count(page, steps, pending);
}

// Puts why a run stopped.
fn put_halt(page: &mut Page<'_>, halt: Halt, steps: u64, pending: Option<u32>)
    ensures put { PutOn page.old (halt_text halt steps (pending_values pending)) page.new }
{
    match halt {
        Halt::Done => put_counted(page, b"done ", steps, pending),
        Halt::Uncaught => put_counted(page, b"uncaught ", steps, pending),
        Halt::Faulted(f) => {
            let number = answer::fault_number(f) as usize;
            put_numbered(page, b"fault ", number, steps, pending)
        }
        Halt::FullStore | Halt::FullStack | Halt::StepsMade | Halt::Outside => {
            let number = answer::halt_number(halt) as usize;
            put_numbered(page, b"stopped ", number, steps, pending)
        }
    }
}

// Puts what is printed of a run, of a program in tables. Memory is what was lent to the stepper.
fn put_run(
    page: &mut Page<'_>,
    o: Outcome,
    t: &[u64; 768],
    frames: &[u64],
    objects: &[u64],
    statics: &[u64],
)
    ensures put { PutOn page.old (printed_run o (program_in t.now) frames.now objects.now statics.now) page.new }
{
    match o {
        Outcome::Refused { number, line } => put_refused(page, number as usize, line),
        Outcome::Short => put_refused(page, 23, 0),
        Outcome::Ran {
            halt,
            steps,
            frames: depth,
            objects: made,
            pending,
        } => {
            put_halt(page, halt, steps, pending);
            rows::put_state(
                page,
                t,
                frames,
                depth as usize,
                objects,
                made as usize,
                statics,
            )
        }
    }
}

// Puts what is printed of a run, of a program in tables, to the front of out, as much as goes in, and answers how many bytes that
// are. Memory is what was lent to the stepper.
pub fn write_run(
    o: Outcome,
    t: &[u64; 768],
    frames: &[u64],
    objects: &[u64],
    statics: &[u64],
    out: &mut [u8],
) -> usize
    ensures bytes { Put out.old 0 (printed_run o (program_in t.now) frames.now objects.now statics.now) out.new result }
{
    let mut page = Page { out, at: 0 };
    put_run(&mut page, o, t, frames, objects, statics);
    page.at
}
