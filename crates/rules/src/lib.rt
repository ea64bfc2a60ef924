// The flow rules in code: the first broken rule of a claim. One function an instruction or a group of them, one dispatcher. Every public
// function takes any tables and words: what it answers is said of the program and the claim that stand in them.
#![tactic(auto)]

ghost use Rattle.std.specs.Prelude.{◌≡◌};
ghost use Rattle.program.specs.Tables.{program_in};
ghost use Rattle.flow.specs.Rules.{rules_at};
ghost use Rattle.flow.specs.Verdict.{verdict};
ghost use Rattle.slots.specs.Layout.{claim_in};
ghost use Rattle.rules.specs.Broken.{broken_in, method_verdict, broken_of};
ghost use Rattle.rules.specs.Site.{program_of, claim_of, broken_at};

use crate::site::Site;
use instruction::Instruction;
use sets::Sets;

mod call; // call.rt: of calls
mod raise; // raise.rt: of exceptions
mod site; // site.rt: where rules are tested
mod step; // step.rt: of instructions that write no register
mod write; // write.rt: of those that write one

// A broken rule by its number, and its place.
#[derive(Clone, Copy)]
pub struct Broken {
    pub rule: usize,
    pub method: usize,
    pub address: usize,
}

impl Site<'_> {
    // The first broken of rules 2 to 10 of an instruction.
    fn of_instruction(&self, i: Instruction) -> Option<usize>
        ensures value { result ≡ broken_at self.now i }
    {
        match i {
            Instruction::Nop => self.to_next(),
            Instruction::Move { to, from } => self.moved(to, from),
            Instruction::Const { to, value } => self.constant(to, value),
            Instruction::Goto { target } => self.to_target(target),
            Instruction::If { target, .. } => self.to_both(target),
            Instruction::IfZero { target, .. } => self.to_both(target),
            Instruction::Binop {
                operation,
                to,
                left,
                right,
            } => self.binary(operation, to, left, right),
            Instruction::Unop { to, from, .. } => self.unary(to, from),
            Instruction::NewInstance { to, class } => self.made(to, class),
            Instruction::Iget { to, object, field } => self.field_read(to, object, field),
            Instruction::Iput {
                from,
                object,
                field,
            } => self.field_written(from, object, field),
            Instruction::Sget { to, place } => self.static_read(to, place),
            Instruction::Sput { from, place } => self.static_written(from, place),
            Instruction::InvokeVirtual { name, count, first } => self.by_receiver(
                name, count, first,
            ),
            Instruction::InvokeStatic {
                method,
                count,
                first,
            } => self.by_method(method, count, first),
            Instruction::MoveResult { to } => self.result_read(to),
            Instruction::MoveException { to } => self.result_read(to),
            Instruction::Return { from } => self.returned(from),
            Instruction::ReturnVoid => self.returned_void(),
            Instruction::Throw { from } => self.thrown(from),
            Instruction::InstanceOf { to, .. } => self.numbers(to),
            Instruction::CheckCast { register, class } => self.cast(register, class),
        }
    }

    // The first broken rule: rules 0 and 1 are those of a first address.
    fn broken(&self) -> Option<usize>
        ensures value { result ≡ broken_in (claim_of self.now) (rules_at (program_of self.now) self.now.method self.now.address) }
    {
        let t = self.sets.tables;
        if self.method == 0 && self.address == 0 && !carry::initial_memory(t, self.claim) {
            return Some(0);
        }
        if self.address == 0 && !carry::entry(t, self.claim, self.method) {
            return Some(1);
        }
        self.of_instruction(program::instruction_at(t, self.method, self.address))
    }
}

// The first broken rule of a method.
fn in_method<'a>(sets: &'a Sets<'a>, claim: &'a [u64; 9712], method: usize) -> Option<Broken>
    ensures value { result ≡ broken_of (method_verdict (program_in sets.now.tables.now) (claim_in claim.now) method) }
{
    for address in 0..program::code_length(sets.tables, method) {
        let site = Site {
            sets,
            claim,
            method,
            address,
        };
        if let Some(rule) = site.broken() {
            return Some(Broken {
                rule,
                method,
                address,
            });
        }
    }
    None
}

// The first broken rule of a claim, by method, address and rule.
pub fn first_broken(t: &[u64; 768], w: &[u64; 9712]) -> Option<Broken>
    ensures value { result ≡ broken_of (verdict (program_in t.now) (claim_in w.now)) }
{
    let mut words = [0; 80];
    let sets = Sets::of(t, &mut words);
    for m in 0..program::method_count(t) {
        if let Some(broken) = in_method(&sets, w, m) {
            return Some(broken);
        }
    }
    None
}
