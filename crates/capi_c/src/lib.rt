// The static library that programs in other languages link: the functions of crate capi under their names, each with its promises.
#![tactic(auto)]

ghost use Rattle.std.specs.Prelude.{◌≡◌, ℕ, length, take};
ghost use Rattle.verdict.specs.declared.Verdict.TheVariants.{Accepted};
ghost use Rattle.verdict.specs.Numbers.{number_of, values_of};
ghost use Rattle.output.specs.declared.Output.TheVariants.{Written};
ghost use Rattle.output.specs.Numbers.{number_of as output_number, values_of as output_values};
ghost use Rattle.output.specs.Written.{writing_number, writing_values, memory_after as memory_written};
ghost use Rattle.reader.specs.Read.{read_program, reading_number, reading_values};
ghost use Rattle.bounded.specs.Step.{stepping_number, stepping_values};
ghost use Rattle.bounded.specs.Lent.{lending, frames_left, objects_left, statics_left};
ghost use Rattle.answer.specs.Words.{answered, verdict_answered};
ghost use Rattle.calls.specs.Bytes.{calls_in};
ghost use Rattle.checker.specs.Check.{checking, checking_number, checking_values, memory_after};
ghost use Rattle.checker.specs.Coverage.{Coverage};
ghost use Rattle.writer.specs.Claimed.{writing, LeastFor};

use cells::{Frame, Object, Value};

// Reads a program text: 0 where it is read, else the number of its refusal. Words 0 to 4 of the answer are that number, the line, and 0.
#[unsafe(no_mangle)]
pub extern "C" fn hudzmoke_read(text: &[u8], answer: &mut [u64]) -> u64
    ensures number { result ≡ reading_number (read_program text.now) }
    ensures answer { let x = read_program text.now in
        answer.new ≡ verdict_answered (reading_number x) (reading_values x) answer.old }
{
    capi::hudzmoke_read(text, answer)
}

// Runs a program text for at most n steps in lent memory: the number of what became of it. Words 0 to 4 of the answer are that
// number, the steps made (or the line), the pending object and 1 (or 0), open frames and objects.
#[unsafe(no_mangle)]
pub extern "C" fn hudzmoke_step(
    text: &[u8],
    n: u64,
    frames: &mut [Frame],
    objects: &mut [Object],
    statics: &mut [Value],
    answer: &mut [u64],
) -> u64
    ensures number { let x = lending text.now n frames.old objects.old statics.old in
        result ≡ stepping_number x }
    ensures answer { let x = lending text.now n frames.old objects.old statics.old in
        answer.new ≡ answered (stepping_number x) (stepping_values x) answer.old }
    ensures memory { let x = lending text.now n frames.old objects.old statics.old in
        (frames.new ≡ frames_left x frames.old)
        × (objects.new ≡ objects_left x objects.old)
        × (statics.new ≡ statics_left x statics.old) }
{
    capi::hudzmoke_step(text, n, frames, objects, statics, answer)
}

// Checks a claim of a program: the number of the verdict. Words 0 to 4 of the answer are that number, the calls (or rule, method and
// address; or the line), and 0. Accepted: the call list stands at the front of memory, three bytes a call.
#[unsafe(no_mangle)]
pub extern "C" fn hudzmoke_check(
    program: &[u8],
    claim: &[u8],
    memory: &mut [u8],
    answer: &mut [u64],
) -> u64
    ensures number { result ≡ checking_number (checking program.now claim.now (length memory.old)) }
    ensures answer { let x = checking program.now claim.now (length memory.old) in
        answer.new ≡ verdict_answered (checking_number x) (checking_values x) answer.old }
    ensures memory { let x = checking program.now claim.now (length memory.old) in
        memory.new ≡ memory_after x memory.old }
    ensures coverage { let x = checking program.now claim.now (length memory.old) in
        ((k : ℕ) → result ≡ number_of (Accepted k)
        → checking_values x ≡ values_of (Accepted k)
        → Coverage program.now claim.now (calls_in k memory.new)) }
{
    capi::hudzmoke_check(program, claim, memory, answer)
}

// Writes the text of the least accepted claim of a program: the number of what came of it. Words 0 to 4 of the answer are that number, the
// text's length (or the line), and 0. The text stands at the front of memory.
#[unsafe(no_mangle)]
pub extern "C" fn hudzmoke_write_claim(program: &[u8], memory: &mut [u8], answer: &mut [u64]) -> u64
    ensures number { result ≡ writing_number (writing program.now (length memory.old)) }
    ensures answer { let x = writing program.now (length memory.old) in
        answer.new ≡ verdict_answered (writing_number x) (writing_values x) answer.old }
    ensures memory { let x = writing program.now (length memory.old) in
        memory.new ≡ memory_written x memory.old }
    ensures least { let x = writing program.now (length memory.old) in
        ((n : ℕ) → result ≡ output_number (Written n)
        → writing_values x ≡ output_values (Written n)
        → LeastFor program.now (take n memory.new)) }
{
    capi::hudzmoke_write_claim(program, memory, answer)
}
