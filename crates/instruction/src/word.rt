// The word that writes an instruction in a text.
ghost use Rattle.std.specs.Prelude.{◌≡◌};
ghost use Rattle.instruction.specs.Word.{fields_of, instruction_of, packed, word_of};

use super::{Condition, Instruction, Operation, Unary};

// The instruction of a word.
#[tactic(auto, unfolding(crate::specs::Word::instruction_of, crate::specs::Word::fields_of, crate::specs::Word::signed_of))]
pub fn decode(w: u64) -> Instruction
    ensures value { result ≡ instruction_of w }
{
    let [o, a, b, c, x, y, z, u] = w.to_be_bytes();
    let d = u32::from_be_bytes([x, y, z, u]);
    match o {
        1 => Instruction::Move { to: a, from: b },
        2 => Instruction::Const {
            to: a,
            value: d.cast_signed(),
        },
        3 => Instruction::Goto { target: d },
        4 => {
            if c < 6 {
                Instruction::If {
                    condition: Condition::from(c),
                    left: a,
                    right: b,
                    target: d,
                }
            } else {
                Instruction::IfZero {
                    condition: Condition::from(c % 6),
                    register: a,
                    target: d,
                }
            }
        }
        5 => Instruction::Binop {
            operation: Operation::from(d),
            to: a,
            left: b,
            right: c,
        },
        6 => Instruction::Unop {
            operation: Unary::from(c),
            to: a,
            from: b,
        },
        7 => Instruction::NewInstance { to: a, class: b },
        8 => Instruction::Iget {
            to: a,
            object: b,
            field: c,
        },
        9 => Instruction::Iput {
            from: a,
            object: b,
            field: c,
        },
        10 => Instruction::Sget { to: a, place: b },
        11 => Instruction::Sput { from: a, place: b },
        12 => Instruction::InvokeVirtual {
            name: a,
            count: b,
            first: c,
        },
        13 => Instruction::InvokeStatic {
            method: a,
            count: b,
            first: c,
        },
        14 => Instruction::MoveResult { to: a },
        15 => Instruction::MoveException { to: a },
        16 => Instruction::Return { from: a },
        17 => Instruction::ReturnVoid,
        18 => Instruction::Throw { from: a },
        19 => Instruction::InstanceOf {
            to: a,
            from: b,
            class: c,
        },
        20 => Instruction::CheckCast {
            register: a,
            class: b,
        },
        _ => Instruction::Nop,
    }
}

// The word of the fields o a b c d.
fn pack(o: u8, a: u8, b: u8, c: u8, d: u32) -> u64
    ensures value { result ≡ packed o a b c d }
{
    let [x, y, z, u] = d.to_be_bytes();
    u64::from_be_bytes([o, a, b, c, x, y, z, u])
}

// The word of an instruction: unused fields are 0.
pub fn encode(i: Instruction) -> u64
    ensures value { result ≡ word_of i }
{
    match i {
        Instruction::Nop => pack(0, 0, 0, 0, 0),
        Instruction::Move { to, from } => pack(1, to, from, 0, 0),
        Instruction::Const { to, value } => pack(2, to, 0, 0, value.cast_unsigned()),
        Instruction::Goto { target } => pack(3, 0, 0, 0, target),
        Instruction::If {
            condition,
            left,
            right,
            target,
        } => pack(4, left, right, u8::from(condition), target),
        Instruction::IfZero {
            condition,
            register,
            target,
        } => pack(4, register, 0, 6 + u8::from(condition), target),
        Instruction::Binop {
            operation,
            to,
            left,
            right,
        } => pack(5, to, left, right, u32::from(operation)),
        Instruction::Unop {
            operation,
            to,
            from,
        } => pack(6, to, from, u8::from(operation), 0),
        Instruction::NewInstance { to, class } => pack(7, to, class, 0, 0),
        Instruction::Iget { to, object, field } => pack(8, to, object, field, 0),
        Instruction::Iput {
            from,
            object,
            field,
        } => pack(9, from, object, field, 0),
        Instruction::Sget { to, place } => pack(10, to, place, 0, 0),
        Instruction::Sput { from, place } => pack(11, from, place, 0, 0),
        Instruction::InvokeVirtual { name, count, first } => pack(12, name, count, first, 0),
        Instruction::InvokeStatic {
            method,
            count,
            first,
        } => pack(13, method, count, first, 0),
        Instruction::MoveResult { to } => pack(14, to, 0, 0, 0),
        Instruction::MoveException { to } => pack(15, to, 0, 0, 0),
        Instruction::Return { from } => pack(16, from, 0, 0, 0),
        Instruction::ReturnVoid => pack(17, 0, 0, 0, 0),
        Instruction::Throw { from } => pack(18, from, 0, 0, 0),
        Instruction::InstanceOf { to, from, class } => pack(19, to, from, class, 0),
        Instruction::CheckCast { register, class } => pack(20, register, class, 0, 0),
    }
}
