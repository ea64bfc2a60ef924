// Steps that do not stay in their frame: what they look at, and what they come to. All of it by value: lent slices are read and
// written by `turns`.
#![tactic(auto)]

mod asks; // asks.rt: what is asked of a run
mod counts; // counts.rt: how far a run has come after a step
mod effects; // effects.rt: what each effect comes to
mod kinds; // kinds.rt: the kinds of steps, and what each comes to
mod passing; // passing.rt: arguments that are passed one by one
mod stays; // stays.rt: runs that stay in their frame
mod unwind; // unwind.rt: what a step with an object pending comes to

ghost use Rattle.std.specs.Prelude.{◌≡◌, eqb};
ghost use Rattle.instruction.specs.Word.{pick};
ghost use Rattle.site.specs.Site.{a_of, c_of};
ghost use Rattle.shift.specs.Places.{top_of, below_of, look_of, thrown_at};

pub use asks::{is_running, others, raised_at, runs};
use cells::Value;
pub use kinds::{CallStatic, CallVirtual, Kind, Leave, Make, RaiseNew, Throw, Unwind};
pub use passing::passed;
use site::How;
pub use stays::{at_of, goes, site_of, stay_of, went};
use turn::{Status, Tally};

// Why no further step can be made: a full store, a full stack, an address outside its method.
#[derive(Clone, Copy)]
pub enum Stop {
    Store,
    Stack,
    Outside,
}

// How far a run has come: the steps that may still be made, what of the state is not in lent slices, and what stopped it, if so.
#[derive(Clone, Copy)]
pub struct Run {
    pub left: u64,
    pub tally: Tally,
    pub stop: Option<Stop>,
}

// A run whose top frame is at an address, with the opcode and the word there, and how the instruction before ended.
#[derive(Clone, Copy)]
pub struct At {
    pub run: Run,
    pub pc: u8,
    pub opcode: u8,
    pub word: u64,
    pub how: How,
}

// A run that stays in frame `top`: the steps that may still be made, the frame's place, how the last instruction ended.
#[derive(Clone, Copy)]
pub struct Stay {
    pub left: u64,
    pub top: usize,
    pub method: u32,
    pub pc: usize,
    pub how: How,
}

// What is to be read: frame `top`'s place and a register of it, the address of the frame below; and what stands where there is
// none.
#[derive(Clone, Copy)]
pub struct Look {
    pub top: usize,
    pub first: usize,
    pub below: usize,
    pub none: Value,
    pub missing: u32,
    pub class: u32,
}

// What is read: the method and the address of the top frame, the address of the one below, a register, the class of the object
// that it names or that is pending.
#[derive(Clone, Copy)]
pub struct Seen {
    pub method: u32,
    pub address: u32,
    pub below: u32,
    pub value: Value,
    pub class: u32,
}

// Arguments that are still to be passed: from a register of frame `top` on to a register of the frame above on.
#[derive(Clone, Copy)]
pub struct Pass {
    pub from: usize,
    pub to: usize,
    pub count: usize,
    pub top: usize,
    pub above: usize,
}

// What is written: a frame that is dropped, the result of a frame, an address, a new object's class, a register, arguments, and
// the method of a frame that is opened. Places past the end are nowhere.
// Stays: six Options make 200 bytes, more than the 150 that are passed by value where steps are made.
#[derive(Clone, Copy)]
pub struct Shift {
    pub popped: usize,
    pub resumed: usize,
    pub value: Value,
    pub moved: usize,
    pub next: u32,
    pub made: usize,
    pub class: u32,
    pub wrote: usize,
    pub to: usize,
    pub pass: Pass,
    pub entered: usize,
    pub method: u32,
    pub run: Run,
}

// The top of so many frames, and the one below it; none is past every slice: so it is compiled without a test.
#[tactic(auto, using(crate::proofs::Places::before_is))]
pub fn top_of(depth: u8) -> usize
    ensures value { result ≡ top_of depth }
{
    (depth as usize).wrapping_sub(1)
}

pub fn below_of(depth: u8) -> usize
    ensures value { result ≡ below_of depth }
{
    top_of(depth.saturating_sub(1))
}

// The register that a step looks at.
fn register_of(opcode: u8, word: u64) -> u8
    ensures value { result ≡ pick (eqb opcode 12) (c_of word) (a_of word) }
{
    if opcode == 12 {
        site::field_c(word)
    } else {
        site::field_a(word)
    }
}

// Which values the step looks at.
#[tactic(auto, unfolding(crate::specs::Places::look_of))]
pub fn looked(h: At) -> Look
    ensures value { result ≡ look_of h }
{
    let depth = h.run.tally.depth;
    Look {
        top: top_of(depth),
        first: register_of(h.opcode, h.word) as usize,
        below: below_of(depth),
        none: Value::default(),
        missing: u32::MAX,
        class: 64,
    }
}

// Where the object stands whose class is asked: the pending one, or the one in the register.
pub fn thrown_at(h: At, x: Value) -> usize
    ensures value { result ≡ thrown_at h x }
{
    match h.run.tally.status {
        Status::Raised(o) => o as usize,
        _ => x.place(),
    }
}
