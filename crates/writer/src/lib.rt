// The claim writer: the text of the least accepted claim of a program, to the front of lent memory.
#![tactic(auto)]

ghost use Rattle.std.specs.Prelude.{◌≡◌, ◌++◌, ℕ, ◌<◌, ◌≤◌, ◌^◌, length, get_or, take, drop};
ghost use Rattle.program.specs.Tables.{program_in};
ghost use Rattle.reader.specs.Formed.{Formed};
ghost use Rattle.reader.specs.Read.{taken};
ghost use Rattle.slots.specs.Layout.{no_masks};
ghost use Rattle.output.specs.declared.Output.TheVariants.{Written};
ghost use Rattle.output.specs.Numbers.{number_of, values_of};
ghost use Rattle.output.specs.Written.{answer_for, writing_number, writing_values, memory_after};
ghost use Rattle.writer.specs.Claimed.{least_text, with_program, writing, LeastFor};

use output::Output;

// The text of the least claim of the program in tables, by way of words for its masks.
fn write_least(t: &[u64; 768], w: &mut [u64; 9712], memory: &mut [u8])
    requires { Formed (program_in t.now)
        × (w.old ≡ no_masks)
        × (length (least_text (program_in t.now)) ≤ length memory.old) }
    ensures memory { let x = least_text (program_in t.now) in
        memory.new ≡ x ++ drop (length x) memory.old }
{
    worklist::fill(t, &mut *w);
    wording::put::put_claim(t, w, memory);
}

// The same with words of its own, if the text fits.
fn write_tables(t: &[u64; 768], memory: &mut [u8]) -> Output
    requires { Formed (program_in t.now) }
    ensures answer { let x = with_program (length memory.old) (taken (program_in t.now)) in
        result ≡ answer_for x }
    ensures memory { let x = with_program (length memory.old) (taken (program_in t.now)) in
        memory.new ≡ memory_after x memory.old }
{
    let n = wording::size::claim_size(t);
    if memory.len() < n {
        return Output::Short;
    }
    let mut w = [0u64; 9712];
    write_least(t, &mut w, memory);
    Output::Written(n)
}

// The same of a program's text, by way of tables.
fn write_by(program: &[u8], t: &mut [u64; 768], memory: &mut [u8]) -> Output
    ensures answer { result ≡ answer_for (writing program.now (length memory.old)) }
    ensures memory { let x = writing program.now (length memory.old) in
        memory.new ≡ memory_after x memory.old }
{
    if let Err(refused) = reader::fill(program, &mut *t) {
        return Output::Refused {
            number: refused.number() as usize,
            line: refused.line(),
        };
    }
    write_tables(t, memory)
}

// The text of the least accepted claim of a program, to the front of lent memory; nothing past it is touched. Where the program is
// refused or memory is shorter than the text, nothing is touched.
pub fn write_claim(program: &[u8], memory: &mut [u8]) -> Output
    ensures answer { result ≡ answer_for (writing program.now (length memory.old)) }
    ensures numbers { let x = writing program.now (length memory.old) in
        (number_of result ≡ writing_number x) × (values_of result ≡ writing_values x) }
    ensures memory { let x = writing program.now (length memory.old) in
        memory.new ≡ memory_after x memory.old }
    ensures least { let after = memory.new in
        ((n : ℕ) → result ≡ Written n → LeastFor program.now (take n after)) }
{
    let mut t = [0u64; 768];
    write_by(program, &mut t, memory)
}
