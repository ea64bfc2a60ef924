// A program in tables, and what checker and stepper ask of it. Every function takes any words: what it answers is said of the
// program that stands in them.
#![tactic(auto)]

ghost use Rattle.std.specs.Prelude.{◌≡◌, ℕ, ◌+◌, ◌*◌, ◌≤◌, ltb, cond, min, get_or};
ghost use Rattle.program.specs.Program.{class_count, field_count, method_count, superclass, field_class};
ghost use Rattle.program.specs.Program.{method_class, method_name, method_kind, registers, arguments, code_length};
ghost use Rattle.program.specs.Program.{word_at, instruction_at, handler_count, handler_at, from_last};
ghost use Rattle.program.specs.Program.{handler_from, handler_to, handler_target, handler_class};
ghost use Rattle.program.specs.Tables.{program_in};

use instruction::Instruction;

// A word of the tables, 0 past their end.
pub fn word(t: &[u64; 768], i: usize) -> usize
    ensures value { result ≡ get_or t.now i 0 }
{
    t.get(i).copied().unwrap_or(0) as usize
}

// The lesser of two counts.
pub fn at_most(n: usize, limit: usize) -> usize
    ensures value { result ≡ min n limit }
{
    n.min(limit)
}

#[tactic(auto, using(crate::proofs::Read::classes_are))]
pub fn class_count(t: &[u64; 768]) -> usize
    ensures value { result ≡ class_count (program_in t.now) }
{
    word(t, 0).min(60)
}

#[tactic(auto, using(crate::proofs::Read::fields_are))]
pub fn field_count(t: &[u64; 768]) -> usize
    ensures value { result ≡ field_count (program_in t.now) }
{
    word(t, 1).min(16)
}

#[tactic(auto, using(crate::proofs::Read::statics_are))]
pub fn static_count(t: &[u64; 768]) -> usize
    ensures value { result ≡ (program_in t.now).statics }
{
    word(t, 2).min(16)
}

#[tactic(auto, using(crate::proofs::Read::methods_are))]
pub fn method_count(t: &[u64; 768]) -> usize
    ensures value { result ≡ method_count (program_in t.now) }
{
    word(t, 3).min(16)
}

#[tactic(auto, using(crate::proofs::Read::classes_limit, crate::proofs::Read::superclass_is))]
pub fn superclass(t: &[u64; 768], c: usize) -> usize
    ensures value { result ≡ superclass (program_in t.now) c }
{
    if c < class_count(t) {
        word(t, 4 + c)
    } else {
        255
    }
}

// The class that a field is declared in.
#[tactic(auto, using(crate::proofs::Read::fields_limit, crate::proofs::Read::field_is))]
pub fn field_class(t: &[u64; 768], f: usize) -> usize
    ensures value { result ≡ field_class (program_in t.now) f }
{
    if f < field_count(t) {
        word(t, 64 + f)
    } else {
        255
    }
}

// Word i of the three of a method; 0 where the program has no such method.
#[tactic(auto, using(crate::proofs::Read::methods_limit))]
fn method_word(t: &[u64; 768], m: usize, i: usize) -> usize
    requires { i ≤ 2 }
    ensures value { result ≡ cond (ltb m (method_count (program_in t.now))) (get_or t.now (80 + 3 * m + i) 0) 0 }
{
    if m < method_count(t) {
        word(t, 80 + 3 * m + i)
    } else {
        0
    }
}

// The fields c n k r a of a method's frame.
#[derive(Clone, Copy)]
struct MethodHeader {
    class: u8,
    name: u8,
    kind: u8,
    registers: u8,
    arguments: u8,
}

#[inline(always)]
#[tactic(auto, using(crate::proofs::Read::header_in))]
fn method_frame(t: &[u64; 768], m: usize) -> MethodHeader
    ensures class { result.class ≡ method_class (program_in t.now) m }
    ensures name { result.name ≡ method_name (program_in t.now) m }
    ensures kind { result.kind ≡ method_kind (program_in t.now) m }
    ensures registers { result.registers ≡ registers (program_in t.now) m }
    ensures arguments { result.arguments ≡ arguments (program_in t.now) m }
{
    let [_, _, _, class, name, kind, registers, arguments] = method_word(t, m, 0).to_be_bytes();
    MethodHeader {
        class,
        name,
        kind,
        registers,
        arguments,
    }
}

pub fn method_class(t: &[u64; 768], m: usize) -> usize
    ensures value { result ≡ method_class (program_in t.now) m }
{
    method_frame(t, m).class as usize
}

pub fn method_name(t: &[u64; 768], m: usize) -> usize
    ensures value { result ≡ method_name (program_in t.now) m }
{
    method_frame(t, m).name as usize
}

// 0 virtual, 1 static.
pub fn method_kind(t: &[u64; 768], m: usize) -> usize
    ensures value { result ≡ method_kind (program_in t.now) m }
{
    method_frame(t, m).kind as usize
}

pub fn registers(t: &[u64; 768], m: usize) -> usize
    ensures value { result ≡ registers (program_in t.now) m }
{
    method_frame(t, m).registers as usize
}

pub fn arguments(t: &[u64; 768], m: usize) -> usize
    ensures value { result ≡ arguments (program_in t.now) m }
{
    method_frame(t, m).arguments as usize
}

#[tactic(auto, using(crate::proofs::Read::code_length_in))]
pub fn code_length(t: &[u64; 768], m: usize) -> usize
    ensures value { result ≡ code_length (program_in t.now) m }
{
    method_word(t, m, 1).min(32)
}

// The fields o a b c d of an instruction's frame.
#[tactic(auto, using(crate::proofs::Read::in_code, crate::proofs::Read::code_room))]
pub fn code_word(t: &[u64; 768], m: usize, pc: usize) -> usize
    ensures value { result ≡ word_at (program_in t.now) m pc }
{
    if pc < code_length(t, m) {
        word(t, 128 + 32 * m + pc)
    } else {
        0
    }
}

pub fn instruction_at(t: &[u64; 768], m: usize, pc: usize) -> Instruction
    ensures value { result ≡ instruction_at (program_in t.now) m pc }
{
    instruction::decode(code_word(t, m, pc) as u64)
}

#[tactic(auto, using(crate::proofs::Read::handler_count_in))]
pub fn handler_count(t: &[u64; 768], m: usize) -> usize
    ensures value { result ≡ handler_count (program_in t.now) m }
{
    method_word(t, m, 2).min(8)
}

// The number of the handler in line i of n; 0 for the last. And the line of number i.
pub fn from_last(n: usize, i: usize) -> usize
    ensures value { result ≡ from_last n i }
{
    if i < n { n - 1 - i } else { 0 }
}

// The fields f t g c of a handler's frame.
#[derive(Clone, Copy)]
struct HandlerFields {
    from: u8,
    to: u8,
    target: u8,
    class: u8,
}

// The frame of a handler as one number, by the handler's number.
#[tactic(auto, using(crate::proofs::Read::in_lines, crate::proofs::Read::past_lines, crate::proofs::Read::handler_room))]
fn handler_word(t: &[u64; 768], m: usize, h: usize) -> usize
    ensures value { result ≡ handler_at (program_in t.now) m h }
{
    let n = handler_count(t, m);
    if h < n {
        word(t, 640 + 8 * m + from_last(n, h))
    } else {
        0
    }
}

#[inline(always)]
fn handler_frame(t: &[u64; 768], m: usize, h: usize) -> HandlerFields
    ensures from { result.from ≡ handler_from (program_in t.now) m h }
    ensures to { result.to ≡ handler_to (program_in t.now) m h }
    ensures target { result.target ≡ handler_target (program_in t.now) m h }
    ensures class { result.class ≡ handler_class (program_in t.now) m h }
{
    let [_, _, _, _, from, to, target, class] = handler_word(t, m, h).to_be_bytes();
    HandlerFields {
        from,
        to,
        target,
        class,
    }
}

pub fn handler_from(t: &[u64; 768], m: usize, h: usize) -> usize
    ensures value { result ≡ handler_from (program_in t.now) m h }
{
    handler_frame(t, m, h).from as usize
}

pub fn handler_to(t: &[u64; 768], m: usize, h: usize) -> usize
    ensures value { result ≡ handler_to (program_in t.now) m h }
{
    handler_frame(t, m, h).to as usize
}

pub fn handler_target(t: &[u64; 768], m: usize, h: usize) -> usize
    ensures value { result ≡ handler_target (program_in t.now) m h }
{
    handler_frame(t, m, h).target as usize
}

pub fn handler_class(t: &[u64; 768], m: usize, h: usize) -> usize
    ensures value { result ≡ handler_class (program_in t.now) m h }
{
    handler_frame(t, m, h).class as usize
}
