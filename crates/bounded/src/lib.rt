// What becomes of a text that is stepped: the answers of the stepper. What they mean are definitions (specs/).
#![tactic(auto)]

use turn::Halt;

// What became of a text: it is refused, memory falls short, or the program ran and stopped, with the steps made, how many
// frames are open, how many objects are made, and the pending object if there is one.
#[derive(Clone, Copy)]
pub enum Outcome {
    // Stays: the papers' number of a refusal, which is printed and given to C by `number_of` and `values_of`.
    Refused {
        number: u8,
        line: usize,
    },
    Short,
    Ran {
        halt: Halt,
        steps: u64,
        frames: u8,
        objects: u32,
        pending: Option<u32>,
    },
}
