// How far a run has come, and why the stepper stops. When it does is a definition (specs/).
#![tactic(auto)]

use machine::Fault;

// Why the stepper stops: an end of the run, a full store or stack, n steps made, or an address outside its method.
#[derive(Clone, Copy)]
pub enum Halt {
    Done,
    Uncaught,
    Faulted(Fault),
    FullStore,
    FullStack,
    StepsMade,
    Outside,
}

// How far the run has come.
#[derive(Clone, Copy)]
pub enum Status {
    Running,
    Raised(u32),
    Done,
    Uncaught(u32),
    Failed(Fault),
}

// What of a state does not lie in lent memory: how many frames are open, how many objects are made, the status.
#[derive(Clone, Copy)]
pub struct Tally {
    pub depth: u8,
    pub made: u32,
    pub status: Status,
}
