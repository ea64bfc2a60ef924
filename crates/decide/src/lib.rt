// What an instruction does with the values that it looks at, as an effect. That a value has the right kind is tested here.
#![tactic(auto)]

pub mod numbers; // numbers.rt: arithmetic and branches
pub mod objects; // objects.rt: fields, virtual calls, exceptions, tests of a class

// The classes of objects that an instruction raises itself: null is used, a division by zero, a cast that fails.
const NULL_CLASS: u8 = 2;

const ARITHMETIC_CLASS: u8 = 3;

const CAST_CLASS: u8 = 4;
