// Opcodes without an offset: what is asked of the units, and the instruction frame.
ghost use Rattle.std.specs.Prelude.{◌≡◌, true, ◌*◌, ◌/◌, ◌%◌, ◌≤◌, ◌<◌, ltb};
ghost use Rattle.instruction.specs.Test.{Holds, passes};
ghost use Rattle.units.specs.Formats.{signed_by, listed, ranged};
ghost use Rattle.units.specs.Frames.{first_of, in_row, five_fine, plain_fine, plain_frame};

use instruction::Instruction;
use units::Plain;

// Nibble j of a call of n arguments, the first in register c, is its register; past the last it is 0.
fn is_in_row(n: u16, c: u16, j: u16, x: u16) -> bool
    requires { (c < 16) × (j < 5) }
    ensures value { result ≡ passes (in_row n c j x) }
{
    if j < n { x == c + j } else { x == 0 }
}

// The five nibbles of a call of format 35c.
fn is_five_fine(u: u16, w: u16) -> bool
    ensures value { result ≡ passes (five_fine u w) }
{
    let n = u / 4096 % 16;
    let c = w % 16;
    n <= 5
        && is_in_row(n, c, 0, c)
        && is_in_row(n, c, 1, w / 16 % 16)
        && is_in_row(n, c, 2, w / 256 % 16)
        && is_in_row(n, c, 3, w / 4096 % 16)
        && is_in_row(n, c, 4, u / 256 % 16)
}

// What refusal 27 asks of an opcode without an offset.
pub fn is_plain_fine(o: Plain, u: u16, v: u16, w: u16) -> bool
    ensures value { result ≡ passes (plain_fine o u v w) }
{
    match o {
        Plain::Nop | Plain::ReturnVoid => u / 256 % 256 == 0,
        Plain::MoveFrom16
        | Plain::CheckCast
        | Plain::InstanceOf
        | Plain::NewInstance
        | Plain::Iget
        | Plain::Iput
        | Plain::Sget
        | Plain::Sput => v < 256,
        Plain::Move16 => u / 256 % 256 == 0 && v < 256 && w < 256,
        Plain::InvokeVirtual | Plain::InvokeStatic => v < 256 && is_five_fine(u, w),
        Plain::InvokeVirtualRange | Plain::InvokeStaticRange => {
            v < 256 && (u / 256 % 256 == 0 || w < 256)
        }
        Plain::Move
        | Plain::MoveResult
        | Plain::MoveException
        | Plain::Return
        | Plain::Const4
        | Plain::Const16
        | Plain::Const32
        | Plain::ConstHigh16
        | Plain::Throw
        | Plain::Unop { .. }
        | Plain::Binop { .. }
        | Plain::BinopInPlace { .. } => true,
    }
}

// The signed number that a field of 2 half values says.
#[tactic(auto, unfolding(units::specs::Formats::signed_by))]
fn signed_by(half: u64, x: u64) -> i32
    requires { (half ≤ 2147483648) × (x < 2 * half) }
    ensures value { result ≡ signed_by half x }
{
    if x < half {
        (x as u32).cast_signed()
    } else {
        ((x + (4294967296 - 2 * half)) as u32).cast_signed()
    }
}

// The first register of a call of format 35c, 0 where it has no argument.
#[tactic(auto, using(crate::proofs::Firsts::listed_none, crate::proofs::Firsts::listed_some))]
fn first_listed(u: u16, w: u16) -> u8
    ensures value { result ≡ first_of (listed u w) }
{
    if u / 4096 % 16 == 0 {
        0
    } else {
        (w % 16) as u8
    }
}

// The first register of a call of format 3rc, 0 where it has no argument.
#[tactic(auto, using(crate::proofs::Firsts::ranged_none, crate::proofs::Firsts::ranged_some))]
fn first_ranged(u: u16, w: u16) -> u8
    ensures value { (ltb 0 (u / 256 % 256) ≡ true → w < 256) → result ≡ first_of (ranged u w) }
{
    if u / 256 % 256 == 0 {
        0
    } else {
        (w % 256) as u8
    }
}

// A value that fits a byte.
fn byte(x: u16) -> u8
    ensures value { x < 256 → result ≡ x }
{
    (x % 256) as u8
}

// The instruction of an opcode with the units u, v and w, of which refusal 27 has nothing to say.
pub fn plain_frame(o: Plain, u: u16, v: u16, w: u16) -> Instruction
    ensures value { Holds (plain_fine o u v w) → result ≡ plain_frame o u v w }
{
    let aa = (u / 256 % 256) as u8;
    let a = (u / 256 % 16) as u8;
    let b = (u / 4096 % 16) as u8;
    match o {
        Plain::Nop => Instruction::Nop,
        Plain::Move => Instruction::Move { to: a, from: b },
        Plain::MoveFrom16 => Instruction::Move {
            to: aa,
            from: byte(v),
        },
        Plain::Move16 => Instruction::Move {
            to: byte(v),
            from: byte(w),
        },
        Plain::MoveResult => Instruction::MoveResult { to: aa },
        Plain::MoveException => Instruction::MoveException { to: aa },
        Plain::ReturnVoid => Instruction::ReturnVoid,
        Plain::Return => Instruction::Return { from: aa },
        Plain::Const4 => Instruction::Const {
            to: a,
            value: signed_by(8, (u / 4096 % 16) as u64),
        },
        Plain::Const16 => Instruction::Const {
            to: aa,
            value: signed_by(32768, v as u64),
        },
        Plain::Const32 => Instruction::Const {
            to: aa,
            value: signed_by(2147483648, v as u64 + 65536 * w as u64),
        },
        Plain::ConstHigh16 => Instruction::Const {
            to: aa,
            value: signed_by(2147483648, 65536 * v as u64),
        },
        Plain::CheckCast => Instruction::CheckCast {
            register: aa,
            class: byte(v),
        },
        Plain::InstanceOf => Instruction::InstanceOf {
            to: a,
            from: b,
            class: byte(v),
        },
        Plain::NewInstance => Instruction::NewInstance {
            to: aa,
            class: byte(v),
        },
        Plain::Throw => Instruction::Throw { from: aa },
        Plain::Iget => Instruction::Iget {
            to: a,
            object: b,
            field: byte(v),
        },
        Plain::Iput => Instruction::Iput {
            from: a,
            object: b,
            field: byte(v),
        },
        Plain::Sget => Instruction::Sget {
            to: aa,
            place: byte(v),
        },
        Plain::Sput => Instruction::Sput {
            from: aa,
            place: byte(v),
        },
        Plain::InvokeVirtual => Instruction::InvokeVirtual {
            name: byte(v),
            count: b,
            first: first_listed(u, w),
        },
        Plain::InvokeStatic => Instruction::InvokeStatic {
            method: byte(v),
            count: b,
            first: first_listed(u, w),
        },
        Plain::InvokeVirtualRange => Instruction::InvokeVirtual {
            name: byte(v),
            count: aa,
            first: first_ranged(u, w),
        },
        Plain::InvokeStaticRange => Instruction::InvokeStatic {
            method: byte(v),
            count: aa,
            first: first_ranged(u, w),
        },
        Plain::Unop { operation } => Instruction::Unop {
            operation,
            to: a,
            from: b,
        },
        Plain::Binop { operation } => Instruction::Binop {
            operation,
            to: aa,
            left: (v % 256) as u8,
            right: byte(v / 256),
        },
        Plain::BinopInPlace { operation } => Instruction::Binop {
            operation,
            to: a,
            left: a,
            right: b,
        },
    }
}
