// The 21 instructions: an enum, the numbers of its conditions and operations, and what a signed field says.
#![tactic(auto)]

ghost use Rattle.std.specs.Prelude.{◌≡◌, ◌%◌};
ghost use Rattle.std.specs.Int.{w32};
ghost use Rattle.std.proofs.Common.{to_z, of_z};
ghost use Rattle.instruction.specs.Word.{signed_of, condition_of, condition_number, operation_of, operation_number, unary_of, unary_number};

mod word; // word.rt: the word that writes an instruction

pub use word::{decode, encode};

#[derive(Clone, Copy)]
pub enum Condition {
    Eq,
    Ne,
    Lt,
    Ge,
    Gt,
    Le,
}

#[derive(Clone, Copy)]
pub enum Operation {
    Add,
    Sub,
    Mul,
    Div,
    Rem,
    And,
    Or,
    Xor,
    Shl,
    Shr,
    Ushr,
}

#[derive(Clone, Copy)]
pub enum Unary {
    Neg,
    Not,
}

// Registers, classes, fields, statics, methods and addresses are named by their numbers.
#[derive(Clone, Copy)]
pub enum Instruction {
    Nop,
    Move {
        to: u8,
        from: u8,
    },
    Const {
        to: u8,
        value: i32,
    },
    Goto {
        target: u32,
    },
    If {
        condition: Condition,
        left: u8,
        right: u8,
        target: u32,
    },
    IfZero {
        condition: Condition,
        register: u8,
        target: u32,
    },
    Binop {
        operation: Operation,
        to: u8,
        left: u8,
        right: u8,
    },
    Unop {
        operation: Unary,
        to: u8,
        from: u8,
    },
    NewInstance {
        to: u8,
        class: u8,
    },
    Iget {
        to: u8,
        object: u8,
        field: u8,
    },
    Iput {
        from: u8,
        object: u8,
        field: u8,
    },
    Sget {
        to: u8,
        place: u8,
    },
    Sput {
        from: u8,
        place: u8,
    },
    InvokeVirtual {
        name: u8,
        count: u8,
        first: u8,
    },
    InvokeStatic {
        method: u8,
        count: u8,
        first: u8,
    },
    MoveResult {
        to: u8,
    },
    MoveException {
        to: u8,
    },
    Return {
        from: u8,
    },
    ReturnVoid,
    Throw {
        from: u8,
    },
    InstanceOf {
        to: u8,
        from: u8,
        class: u8,
    },
    CheckCast {
        register: u8,
        class: u8,
    },
}

// The signed number that four bytes say, high byte first.
#[tactic(auto, unfolding(crate::specs::Word::signed_of))]
pub fn signed(x: u8, y: u8, z: u8, u: u8) -> i32
    ensures value { result ≡ signed_of x y z u }
{
    i32::from_be_bytes([x, y, z, u])
}

// The condition of a number: what is none of 0 to 4 is le.
impl From<u8> for Condition {
    ghost from_gives = { λ n c. c ≡ condition_of n };

    #[tactic(auto, unfolding(crate::specs::Word::condition_of))]
    fn from(n: u8) -> Self {
        match n {
            0 => Self::Eq,
            1 => Self::Ne,
            2 => Self::Lt,
            3 => Self::Ge,
            4 => Self::Gt,
            _ => Self::Le,
        }
    }
}

impl From<Condition> for u8 {
    ghost from_gives = { λ c n. n ≡ condition_number c };

    fn from(c: Condition) -> Self {
        match c {
            Condition::Eq => 0,
            Condition::Ne => 1,
            Condition::Lt => 2,
            Condition::Ge => 3,
            Condition::Gt => 4,
            Condition::Le => 5,
        }
    }
}

// The operation of a number: what is none of 0 to 9 is ushr.
impl From<u32> for Operation {
    ghost from_gives = { λ n o. o ≡ operation_of n };

    #[tactic(auto, unfolding(crate::specs::Word::operation_of))]
    fn from(n: u32) -> Self {
        match n {
            0 => Self::Add,
            1 => Self::Sub,
            2 => Self::Mul,
            3 => Self::Div,
            4 => Self::Rem,
            5 => Self::And,
            6 => Self::Or,
            7 => Self::Xor,
            8 => Self::Shl,
            9 => Self::Shr,
            _ => Self::Ushr,
        }
    }
}

impl From<Operation> for u32 {
    ghost from_gives = { λ o n. n ≡ operation_number o };

    fn from(o: Operation) -> Self {
        match o {
            Operation::Add => 0,
            Operation::Sub => 1,
            Operation::Mul => 2,
            Operation::Div => 3,
            Operation::Rem => 4,
            Operation::And => 5,
            Operation::Or => 6,
            Operation::Xor => 7,
            Operation::Shl => 8,
            Operation::Shr => 9,
            Operation::Ushr => 10,
        }
    }
}

// The operation of a number: what is not 0 is not.
impl From<u8> for Unary {
    ghost from_gives = { λ n u. u ≡ unary_of n };

    #[tactic(auto, unfolding(crate::specs::Word::unary_of))]
    fn from(n: u8) -> Self {
        match n {
            0 => Self::Neg,
            _ => Self::Not,
        }
    }
}

impl From<Unary> for u8 {
    ghost from_gives = { λ u n. n ≡ unary_number u };

    fn from(u: Unary) -> Self {
        match u {
            Unary::Neg => 0,
            Unary::Not => 1,
        }
    }
}
