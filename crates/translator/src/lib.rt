// The translator: the instruction frames of a method's line of code units, to the front of lent memory.
#![tactic(auto)]

mod branches; // branches.rt: opcodes with an offset
mod check; // check.rt: the instruction at a start
mod put; // put.rt: frames as text
mod straight; // straight.rt: opcodes without one
mod taken; // taken.rt: the opcodes that are taken
mod walk; // walk.rt: units and starts of a text

ghost use Rattle.std.specs.Prelude.{◌≡◌, ℕ, ◌≤◌, length, take};
ghost use Rattle.units.specs.Units.{units_of};
ghost use Rattle.units.specs.Translate.{units_translation};
ghost use Rattle.output.specs.declared.Output.TheVariants.{Written};
ghost use Rattle.output.specs.Numbers.{number_of, values_of};
ghost use Rattle.output.specs.Written.{answer_for, writing_number, writing_values, memory_after};
ghost use Rattle.unit_machine.specs.Alike.{RunsAlike};
ghost use Rattle.translator.specs.Translating.{translating};
ghost use Rattle.translator.specs.Inside.{Walked};

pub use check::Fault;
use opcodes::Table;
use output::Output;
pub use walk::{Line, Start};

// Why a text is refused, and at which address.
#[derive(Clone, Copy)]
pub struct Refusal {
    pub number: usize,
    pub address: usize,
}

// The words of a line's instructions, one after another, and how many.
fn words_of(line: Line<'_>, words: &mut [u64]) -> Result<usize, Refusal>
    requires { 32 ≤ length words.old }
    ensures walked { Walked (units_translation (units_of line.entry.text.now)) result words.new }
    ensures room { 32 ≤ length words.new }
{
    let end = line.count();
    let mut starts = [0usize; 32];
    let mut here = Start {
        place: 0,
        address: 0,
    };
    let mut found = here;
    while here.place < end {
        let n = line.length_at(here.place);
        let [op, _] = line.unit(here.place).to_le_bytes();
        let o = taken::opcode_of(op);
        found = check::sought(line, &starts, found, here, o);
        match check::check_at(line, found, here, n, o) {
            Ok(w) => {
                words[here.address] = w;
                starts[here.address] = here.place;
                here = Start {
                    place: here.place + n,
                    address: here.address + 1,
                };
            }
            Err(fault) => {
                return Err(Refusal {
                    number: usize::from(fault),
                    address: here.address,
                });
            }
        }
    }
    Ok(here.address)
}

// The instruction frames of a method's line of units, to the front of lent memory; nothing past them is touched. Where the text is
// refused or memory is shorter than the frames, nothing is touched.
pub fn translate(text: &[u8], memory: &mut [u8]) -> Output
    ensures answer { result ≡ answer_for (translating text.now (length memory.old)) }
    ensures numbers { let x = translating text.now (length memory.old) in
        (number_of result ≡ writing_number x) × (values_of result ≡ writing_values x) }
    ensures memory { let x = translating text.now (length memory.old) in
        memory.new ≡ memory_after x memory.old }
    ensures alike { let after = memory.new in
        ((n : ℕ) → result ≡ Written n → RunsAlike text.now (take n after)) }
{
    if !walk::is_one_line(text) {
        return Output::Refused { number: 2, line: 1 };
    }
    let table = Table::new();
    let line = Line {
        text,
        table: &table,
    };
    let mut words = [0u64; 32];
    match words_of(line, &mut words) {
        Ok(count) => put::put_frames(memory, &words, count),
        Err(refusal) => Output::Refused {
            number: refusal.number,
            line: refusal.address,
        },
    }
}
