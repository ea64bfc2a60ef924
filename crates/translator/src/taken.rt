// The opcodes that are taken.
ghost use Rattle.std.specs.Prelude.{◌≡◌};
ghost use Rattle.units.specs.Formats.{opcode_of};

use instruction::{Condition, Operation, Unary};
use units::{Branch, Opcode, Plain};

// The opcode of a number, by document 02's list of those that are taken.
#[tactic(auto, unfolding(units::specs::Formats::opcode_of))]
pub fn opcode_of(op: u8) -> Opcode
    ensures value { result ≡ opcode_of op }
{
    match op {
        0x32..=0x37 => Opcode::Branch(Branch::If {
            condition: Condition::from(op - 0x32),
        }),
        0x38..=0x3d => Opcode::Branch(Branch::IfZero {
            condition: Condition::from(op - 0x38),
        }),
        0x90..=0x9a => Opcode::Plain(Plain::Binop {
            operation: Operation::from((op - 0x90) as u32),
        }),
        0xb0..=0xba => Opcode::Plain(Plain::BinopInPlace {
            operation: Operation::from((op - 0xb0) as u32),
        }),
        0x00 => Opcode::Plain(Plain::Nop),
        0x01 | 0x07 => Opcode::Plain(Plain::Move),
        0x02 | 0x08 => Opcode::Plain(Plain::MoveFrom16),
        0x03 | 0x09 => Opcode::Plain(Plain::Move16),
        0x0a | 0x0c => Opcode::Plain(Plain::MoveResult),
        0x0d => Opcode::Plain(Plain::MoveException),
        0x0e => Opcode::Plain(Plain::ReturnVoid),
        0x0f | 0x11 => Opcode::Plain(Plain::Return),
        0x12 => Opcode::Plain(Plain::Const4),
        0x13 => Opcode::Plain(Plain::Const16),
        0x14 => Opcode::Plain(Plain::Const32),
        0x15 => Opcode::Plain(Plain::ConstHigh16),
        0x1f => Opcode::Plain(Plain::CheckCast),
        0x20 => Opcode::Plain(Plain::InstanceOf),
        0x22 => Opcode::Plain(Plain::NewInstance),
        0x27 => Opcode::Plain(Plain::Throw),
        0x28 => Opcode::Branch(Branch::Goto),
        0x29 => Opcode::Branch(Branch::Goto16),
        0x2a => Opcode::Branch(Branch::Goto32),
        0x52 | 0x54 => Opcode::Plain(Plain::Iget),
        0x59 | 0x5b => Opcode::Plain(Plain::Iput),
        0x60 | 0x62 => Opcode::Plain(Plain::Sget),
        0x67 | 0x69 => Opcode::Plain(Plain::Sput),
        0x6e => Opcode::Plain(Plain::InvokeVirtual),
        0x71 => Opcode::Plain(Plain::InvokeStatic),
        0x74 => Opcode::Plain(Plain::InvokeVirtualRange),
        0x77 => Opcode::Plain(Plain::InvokeStaticRange),
        0x7b => Opcode::Plain(Plain::Unop {
            operation: Unary::Neg,
        }),
        0x7c => Opcode::Plain(Plain::Unop {
            operation: Unary::Not,
        }),
        _ => Opcode::NotTaken,
    }
}
