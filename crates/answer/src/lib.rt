// Answers as the five words that an export writes, where so many are lent, and the number of each; the number of a fault, which is printed
// and told too. docs/FORMATS.md says what each word means.
#![tactic(auto)]

ghost use Rattle.std.specs.Prelude.{◌≡◌, [], ◌∷◌, ℕ, leb, length, set};
ghost use Rattle.instruction.specs.Word.{pick};
ghost use Rattle.machine.specs.State.{fault_number};
ghost use Rattle.turn.specs.Stop.{halt_number};
ghost use Rattle.bounded.specs.Step.{number_of, values_of, pending_values};
ghost use Rattle.verdict.specs.Numbers.{number_of as verdict_number, values_of as verdict_values};
ghost use Rattle.output.specs.Numbers.{number_of as output_number, values_of as output_values};
ghost use Rattle.answer.specs.Words.{pending_word, answered, verdict_answered};

use bounded::Outcome;
use machine::Fault;
use output::Output;
use turn::Halt;
use verdict::Verdict;

// Document 01's number of a fault.
pub fn fault_number(f: Fault) -> u8
    ensures value { result ≡ fault_number f }
{
    match f {
        Fault::NumberAsObject => 2,
        Fault::ObjectAsNumber => 3,
        Fault::FieldNotHad => 5,
        Fault::NoMethod => 6,
        Fault::NotThrowable => 7,
    }
}

// The papers' number of why the stepper stops.
pub fn halt_number(h: Halt) -> u64
    ensures value { result ≡ halt_number h }
{
    match h {
        Halt::Done => 32,
        Halt::Uncaught => 33,
        Halt::Faulted(f) => 40 + fault_number(f) as u64,
        Halt::FullStore => 20,
        Halt::FullStack => 21,
        Halt::StepsMade => 22,
        Halt::Outside => 24,
    }
}

fn pending_word(p: Option<u32>) -> u64
    ensures value { (a b c : ℕ) → result ≡ pending_word (a ∷ b ∷ c ∷ pending_values p) }
{
    match p {
        None => 0,
        Some(o) => o as u64 + 1,
    }
}

// Writes five words, where so many are lent.
fn put(answer: &mut [u64], number: u64, first: u64, pending: u64, frames: u64, objects: u64) -> u64
    ensures number { result ≡ number }
    ensures memory { answer.new ≡ pick (leb 5 (length answer.old)) (set (set (set (set (set answer.old 0 number) 1 first) 2 pending) 3 frames) 4 objects) answer.old }
{
    if answer.len() < 5 {
        return number;
    }
    memory::put_word(&mut *answer, 0, number);
    memory::put_word(&mut *answer, 1, first);
    memory::put_word(&mut *answer, 2, pending);
    memory::put_word(&mut *answer, 3, frames);
    memory::put_word(answer, 4, objects);
    number
}

// Writes what the reader of a program answered, its number and its line, as five words, and answers the number.
pub fn put_reading(answer: &mut [u64], number: u8, line: usize) -> u64
    ensures number { result ≡ number }
    ensures memory { answer.new ≡ verdict_answered number (line ∷ []) answer.old }
{
    put(answer, number as u64, line as u64, 0, 0, 0)
}

// Writes what the stepper answered as five words, and answers its number.
pub fn put_outcome(answer: &mut [u64], o: Outcome) -> u64
    ensures number { result ≡ number_of o }
    ensures memory { answer.new ≡ answered (number_of o) (values_of o) answer.old }
{
    match o {
        Outcome::Refused { number, line } => put(answer, number as u64, line as u64, 0, 0, 0),
        Outcome::Short => put(answer, 23, 0, 0, 0, 0),
        Outcome::Ran {
            halt,
            steps,
            frames,
            objects,
            pending,
        } => {
            let number = halt_number(halt);
            let word = pending_word(pending);
            put(answer, number, steps, word, frames as u64, objects as u64)
        }
    }
}

// Writes what `checker::check` answered as five words, and answers its number.
pub fn put_verdict(answer: &mut [u64], v: Verdict) -> u64
    ensures number { result ≡ verdict_number v }
    ensures memory { answer.new ≡ verdict_answered (verdict_number v) (verdict_values v) answer.old }
{
    match v {
        Verdict::Accepted(count) => put(answer, 34, count as u64, 0, 0, 0),
        Verdict::Violated {
            rule,
            method,
            address,
        } => put(answer, 35, rule as u64, method as u64, address as u64, 0),
        Verdict::Refused { number, line } => put(answer, number as u64, line as u64, 0, 0, 0),
        Verdict::Short => put(answer, 23, 0, 0, 0, 0),
    }
}

// Writes what a call that writes a text answered as five words, and answers its number.
pub fn put_output(answer: &mut [u64], o: Output) -> u64
    ensures number { result ≡ output_number o }
    ensures memory { answer.new ≡ verdict_answered (output_number o) (output_values o) answer.old }
{
    match o {
        Output::Written(count) => put(answer, 36, count as u64, 0, 0, 0),
        Output::Refused { number, line } => put(answer, number as u64, line as u64, 0, 0, 0),
        Output::Short => put(answer, 23, 0, 0, 0, 0),
    }
}
