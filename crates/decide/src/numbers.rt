// Arithmetic and branches on two values.
ghost use Rattle.std.specs.Prelude.{◌≡◌};
ghost use Rattle.instruction.specs.Word.{pick};
ghost use Rattle.machine.specs.declared.Effect.TheVariants.{Next, Jump};
ghost use Rattle.machine.specs.Decide.{computed_into, binop, unop, compared, branch};

use super::ARITHMETIC_CLASS;
use instruction::{Condition, Operation, Unary};
use machine::{Effect, Fault, Value};

fn computed_into(to: u8, k: Option<i32>) -> Effect
    ensures value { result ≡ computed_into to k }
{
    let Some(z) = k else {
        return Effect::RaiseNew {
            class: ARITHMETIC_CLASS,
        };
    };
    Effect::Write {
        to,
        value: Value::Number(z),
    }
}

// Both operands are tested before the divisor.
// Stays: a match on the pair, here and in `branch`, made arithmetic three parts in a hundred slower.
pub fn binop(to: u8, o: Operation, left: Value, right: Value) -> Effect
    ensures value { result ≡ binop to o left right }
{
    let Value::Number(x) = left else {
        return Effect::Fail {
            fault: Fault::ObjectAsNumber, // also where the divisor is zero
        };
    };
    let Value::Number(y) = right else {
        return Effect::Fail {
            fault: Fault::ObjectAsNumber,
        };
    };
    computed_into(to, arithmetic::binary(o, x, y))
}

pub fn unop(to: u8, o: Unary, v: Value) -> Effect
    ensures value { result ≡ unop to o v }
{
    match v {
        Value::Number(x) => Effect::Write {
            to,
            value: Value::Number(arithmetic::unary(o, x)),
        },
        Value::Reference(_) => Effect::Fail {
            fault: Fault::ObjectAsNumber,
        },
    }
}

fn jump_if(test: bool, target: u32) -> Effect
    ensures value { result ≡ pick test (Jump target) Next }
{
    if test {
        Effect::Jump { target }
    } else {
        Effect::Next
    }
}

// A branch on two values that are not both numbers: order conditions need numbers.
fn compared(c: Condition, same: bool, target: u32) -> Effect
    ensures value { result ≡ compared c same target }
{
    match c {
        Condition::Eq => jump_if(same, target),
        Condition::Ne => jump_if(!same, target),
        _ => Effect::Fail {
            fault: Fault::ObjectAsNumber,
        },
    }
}

// A number and an object are never equal, and an object equals only itself.
pub fn branch(c: Condition, left: Value, right: Value, target: u32) -> Effect
    ensures value { result ≡ branch c left right target }
{
    match left {
        Value::Number(x) => {
            let Value::Number(y) = right else {
                return compared(c, false, target);
            };
            jump_if(arithmetic::holds(c, x, y), target)
        }
        Value::Reference(q) => {
            let Value::Reference(r) = right else {
                return compared(c, false, target);
            };
            compared(c, q == r, target)
        }
    }
}
