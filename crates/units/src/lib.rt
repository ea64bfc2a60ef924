// Code units of Android's "Dalvik bytecode": the opcodes that are taken. The translator's code is in translator.
#![tactic(auto)]

use instruction::{Condition, Operation, Unary};

// An opcode that is taken and has no offset.
#[derive(Clone, Copy)]
pub enum Plain {
    Nop,
    Move,
    MoveFrom16,
    Move16,
    MoveResult,
    MoveException,
    ReturnVoid,
    Return,
    Const4,
    Const16,
    Const32,
    ConstHigh16,
    CheckCast,
    InstanceOf,
    NewInstance,
    Throw,
    Iget,
    Iput,
    Sget,
    Sput,
    InvokeVirtual,
    InvokeStatic,
    InvokeVirtualRange,
    InvokeStaticRange,
    Unop { operation: Unary },
    Binop { operation: Operation },
    BinopInPlace { operation: Operation },
}

// An opcode that is taken and has an offset.
#[derive(Clone, Copy)]
pub enum Branch {
    Goto,
    Goto16,
    Goto32,
    If { condition: Condition },
    IfZero { condition: Condition },
}

#[derive(Clone, Copy)]
pub enum Opcode {
    Plain(Plain),
    Branch(Branch),
    NotTaken,
}
