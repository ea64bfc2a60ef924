// What an instruction names, and whether control goes on past it.
#![tactic(auto)]

ghost use Rattle.std.specs.Prelude.{◌≡◌, ◌+◌, ltb, leb};
ghost use Rattle.instruction.specs.Test.{passes};
ghost use Rattle.instruction.specs.Word.{falls_through};
ghost use Rattle.operands.specs.Names.{named};

use instruction::Instruction;

// How many of each thing there is to name.
#[derive(Clone, Copy)]
pub struct Limits {
    pub registers: u64,
    pub length: u64,
    pub classes: u64,
    pub fields: u64,
    pub statics: u64,
    pub methods: u64,
}

// Whether control goes on to the next address.
pub fn falls_through(i: Instruction) -> bool
    ensures value { result ≡ falls_through i }
{
    !matches!(
        i,
        Instruction::Goto { .. }
            | Instruction::Return { .. }
            | Instruction::ReturnVoid
            | Instruction::Throw { .. }
    )
}

impl Limits {
    // Whether the method has a register.
    fn has_register(self, r: u8) -> bool
        ensures value { result ≡ ltb r self.registers }
    {
        u64::from(r) < self.registers
    }

    // Whether the method has an address.
    fn has_address(self, pc: u32) -> bool
        ensures value { result ≡ ltb pc self.length }
    {
        u64::from(pc) < self.length
    }

    fn has_class(self, c: u8) -> bool
        ensures value { result ≡ ltb c self.classes }
    {
        u64::from(c) < self.classes
    }

    fn has_field(self, f: u8) -> bool
        ensures value { result ≡ ltb f self.fields }
    {
        u64::from(f) < self.fields
    }

    fn has_static(self, s: u8) -> bool
        ensures value { result ≡ ltb s self.statics }
    {
        u64::from(s) < self.statics
    }

    // Whether a call's arguments stand in registers.
    fn has_arguments(self, first: u8, count: u8) -> bool
        ensures value { result ≡ leb (first + count) self.registers }
    {
        u64::from(first) + u64::from(count) <= self.registers
    }
}

// Whether all that an instruction names exists.
pub fn names_fit(l: Limits, i: Instruction) -> bool
    ensures value { result ≡ passes (named l i) }
{
    match i {
        Instruction::Nop | Instruction::ReturnVoid => true,
        Instruction::Const { to: r, .. }
        | Instruction::MoveResult { to: r }
        | Instruction::MoveException { to: r }
        | Instruction::Return { from: r }
        | Instruction::Throw { from: r } => l.has_register(r),
        Instruction::Move { to, from } | Instruction::Unop { to, from, .. } => {
            l.has_register(to) && l.has_register(from)
        }
        Instruction::Goto { target } => l.has_address(target),
        Instruction::If {
            left,
            right,
            target,
            ..
        } => l.has_register(left) && l.has_register(right) && l.has_address(target),
        Instruction::IfZero {
            register,
            target,
            ..
        } => l.has_register(register) && l.has_address(target),
        Instruction::Binop {
            to,
            left,
            right,
            ..
        } => l.has_register(to) && l.has_register(left) && l.has_register(right),
        Instruction::NewInstance { to: r, class } | Instruction::CheckCast { register: r, class } =>
            { l.has_register(r) && l.has_class(class) }
        Instruction::Iget {
            to: r,
            object,
            field,
        }
        | Instruction::Iput {
            from: r,
            object,
            field,
        } => { l.has_register(r) && l.has_register(object) && l.has_field(field) }
        Instruction::Sget { to: r, place } | Instruction::Sput { from: r, place } => {
            l.has_register(r) && l.has_static(place)
        }
        Instruction::InvokeVirtual { count, first, .. } => 0 < count
            && l.has_arguments(first, count),
        Instruction::InvokeStatic {
            method,
            count,
            first,
        } => u64::from(method) < l.methods && l.has_arguments(first, count),
        Instruction::InstanceOf { to, from, class } => {
            l.has_register(to) && l.has_register(from) && l.has_class(class)
        }
    }
}
