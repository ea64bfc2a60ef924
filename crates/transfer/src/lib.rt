// The transfer functions: the rules at an address, met by joining masks. One function an instruction or a group of them, one
// dispatcher. What they answer guides the order of work and nothing else: marks of what got new bits, by number 0 to 31 an address of the
// same method, then the entry of a callee, what leaves the method or is returned, and a field or a static (`raise::words`).
#![tactic(auto)]

ghost use Rattle.std.specs.Prelude.{◌≡◌, ◌&&◌, ◌<◌, eqb};
ghost use Rattle.program.specs.Program.{method_count, code_length};
ghost use Rattle.program.specs.Tables.{program_in};
ghost use Rattle.reader.specs.Formed.{Formed};
ghost use Rattle.flow.specs.Flows.{when};
ghost use Rattle.flow.specs.Rules.{initial_memory, entry, rules_of, rules_at};
ghost use Rattle.slots.specs.Layout.{claim_in};
ghost use Rattle.sets.specs.Sets.{sets_of};
ghost use Rattle.order.specs.Raised.{Raised, all_of};
ghost use Rattle.transfer.specs.Transfer.{Ready};
ghost use Rattle.transfer.specs.Site.{program_of};

use crate::site::Site;
use instruction::Instruction;
use sets::Sets;

mod call; // call.rt: calls
mod own; // own.rt: exceptions that an instruction raises itself
mod site; // site.rt: the address whose rules are met
mod step; // step.rt: instructions that write no register
mod write; // write.rt: those that write one

impl Site<'_> {
    // Rules 2 to 10 at an instruction.
    fn of_instruction(&self, w: &mut [u64; 9712], i: Instruction) -> u64
        ensures raised { let p = program_of self.now in
            let m = self.now.method in
            let pc = self.now.address in
            let c = claim_in w.old in
            let d = claim_in w.new in
            (Ready p m pc i → Raised (all_of (rules_of p m pc i)) c d) }
    {
        match i {
            Instruction::Nop => self.to_next(w),
            Instruction::Move { to, from } => self.moved(w, to, from),
            Instruction::Const { to, value } => self.constant(w, to, value),
            Instruction::Goto { target } => self.to_target(w, target),
            Instruction::If { target, .. } => self.to_both(w, target),
            Instruction::IfZero { target, .. } => self.to_both(w, target),
            Instruction::Binop {
                operation,
                to,
                left,
                right,
            } => self.binary(w, operation, to, left, right),
            Instruction::Unop { to, from, .. } => self.of_both(w, to, from, from),
            Instruction::NewInstance { to, class } => self.made(w, to, class),
            Instruction::Iget { to, object, field } => self.field_read(w, to, object, field),
            Instruction::Iput {
                from,
                object,
                field,
            } => self.field_written(w, from, object, field),
            Instruction::Sget { to, place } => self.static_read(w, to, place),
            Instruction::Sput { from, place } => self.static_written(w, from, place),
            Instruction::InvokeVirtual { name, count, first } => self.by_receiver(
                w, name, count, first,
            ),
            Instruction::InvokeStatic {
                method,
                count,
                first,
            } => self.by_method(w, method, count, first),
            Instruction::MoveResult { to } => self.result_read(w, to),
            Instruction::MoveException { to } => self.result_read(w, to),
            Instruction::Return { from } => self.returned(w, from),
            Instruction::ReturnVoid => self.returned_void(w),
            Instruction::Throw { from } => self.thrown(w, from),
            Instruction::InstanceOf { to, .. } => self.numbers(w, to),
            Instruction::CheckCast { register, class } => self.cast(w, register, class),
        }
    }
}

// Rule 0, where it is asked.
fn memory_at(t: &[u64; 768], w: &mut [u64; 9712], m: usize, pc: usize)
    ensures raised { let p = program_in t.now in
        let c = claim_in w.old in
        let d = claim_in w.new in
        (Formed p → Raised (when (eqb m 0 && eqb pc 0) (initial_memory p)) c d) }
{
    if m == 0 && pc == 0 {
        raise::start::initial_memory(t, w);
    }
}

// Rule 1, where it is asked.
fn entry_at(t: &[u64; 768], w: &mut [u64; 9712], m: usize, pc: usize)
    ensures raised { let p = program_in t.now in
        let c = claim_in w.old in
        let d = claim_in w.new in
        (Formed p → m < method_count p → Raised (when (eqb pc 0) (entry p m)) c d) }
{
    if pc == 0 {
        raise::start::entry(t, w, m);
    }
}

// All rules at an address.
pub fn raise_by<'a>(sets: &'a Sets<'a>, w: &mut [u64; 9712], method: usize, address: usize) -> u64
    ensures raised { let p = program_in sets.now.tables.now in
        let c = claim_in w.old in
        let d = claim_in w.new in
        (Formed p → method < method_count p → address < code_length p method → Raised (all_of (rules_at p method address)) c d) }
{
    if address >= 32 {
        return 0;
    }
    memory_at(sets.tables, &mut *w, method, address);
    entry_at(sets.tables, &mut *w, method, address);
    let site = Site {
        sets,
        method,
        address,
    };
    site.of_instruction(w, program::instruction_at(sets.tables, method, address))
}

// The same for a caller that holds a program's sets in words: they are made anew, so that nothing is asked of the words.
pub fn raise_at(t: &[u64; 768], w: &mut [u64; 9712], s: &[u64; 80], m: usize, pc: usize) -> u64
    ensures raised { let p = program_in t.now in
        let c = claim_in w.old in
        let d = claim_in w.new in
        (s.now ≡ sets_of p → Formed p → m < method_count p → pc < code_length p m → Raised (all_of (rules_at p m pc)) c d) }
{
    let mut words = [0; 80];
    raise_by(&Sets::of(t, &mut words), w, m, pc)
}
