// The arithmetic of signed 32-bit numbers: binary and unary operations, and conditions on two numbers.
#![tactic(auto)]

ghost use Rattle.std.specs.Prelude.{◌≡◌};
ghost use Rattle.arithmetic.specs.Arithmetic.{computed, unary_value, in_order, divides};

use instruction::{Condition, Operation, Unary};

// The result of a binary operation; none, where it divides by zero.
#[tactic(auto, using(crate::proofs::Wrapped::wraps), unfolding(crate::specs::Arithmetic::computed))]
pub fn binary(o: Operation, x: i32, y: i32) -> Option<i32>
    ensures value { result ≡ computed o x y }
{
    let n = y.cast_unsigned();
    match o {
        Operation::Add => Some(x.wrapping_add(y)),
        Operation::Sub => Some(x.wrapping_sub(y)),
        Operation::Mul => Some(x.wrapping_mul(y)),
        Operation::Div => if y == 0 {
            None
        } else {
            Some(x.wrapping_div(y))
        },
        Operation::Rem => if y == 0 {
            None
        } else {
            Some(x.wrapping_rem(y))
        },
        Operation::And => Some(x & y),
        Operation::Or => Some(x | y),
        Operation::Xor => Some(x ^ y),
        Operation::Shl => Some(x.wrapping_shl(n)),
        Operation::Shr => Some(x.wrapping_shr(n)),
        Operation::Ushr => Some(x.cast_unsigned().wrapping_shr(n).cast_signed()),
    }
}

// Whether an operation divides.
pub fn divides(o: Operation) -> bool
    ensures value { result ≡ divides o }
{
    matches!(o, Operation::Div | Operation::Rem)
}

// The result of a unary operation.
#[tactic(auto, using(crate::proofs::Wrapped::wraps), unfolding(crate::specs::Arithmetic::unary_value))]
pub fn unary(o: Unary, x: i32) -> i32
    ensures value { result ≡ unary_value o x }
{
    match o {
        Unary::Neg => x.wrapping_neg(),
        Unary::Not => !x,
    }
}

// Whether a condition holds of two numbers.
#[tactic(auto, using(crate::proofs::Tests::same_bits), unfolding(crate::specs::Arithmetic::in_order))]
pub fn holds(c: Condition, x: i32, y: i32) -> bool
    ensures value { result ≡ in_order c x y }
{
    match c {
        Condition::Eq => x == y,
        Condition::Ne => x != y,
        Condition::Lt => x < y,
        Condition::Ge => x >= y,
        Condition::Gt => x > y,
        Condition::Le => x <= y,
    }
}
