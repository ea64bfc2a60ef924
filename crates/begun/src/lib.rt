// How the stepper begins on a text, and what it answers in the end. All of it by value but the text and the tables: lent slices
// are made zero, and the run is made, by the crates above.
#![tactic(auto)]

ghost use Rattle.std.specs.Prelude.{◌≡◌, replicate};
ghost use Rattle.reader.specs.Read.{read_program, tables_after};
ghost use Rattle.bounded.specs.Lent.{enough};
ghost use Rattle.begun.specs.Begun.{start_run, begun_by, outcome_of, limit_halt, halt_of, pending_of, ran_to};

use bounded::Outcome;
use shift::{Run, Stop};
use turn::{Halt, Status, Tally};

// Why no run begins: the text is refused, or too few frames, objects or statics are lent.
#[derive(Clone, Copy)]
pub enum NotBegun {
    // Stays: definition `begun_by` says a refusal by its number and line, as `read_program` does.
    Refused { number: u8, line: usize },
    Short,
}

impl From<NotBegun> for Outcome {
    ghost from_gives = { λ e x. x ≡ outcome_of e };

    fn from(e: NotBegun) -> Self {
        match e {
            NotBegun::Refused { number, line } => Outcome::Refused { number, line },
            NotBegun::Short => Outcome::Short,
        }
    }
}

// Whether so many are enough.
fn suffices(frames: usize, objects: usize, statics: usize) -> bool
    ensures value { result ≡ enough frames objects statics }
{
    32 <= frames && 256 <= objects && 16 <= statics
}

// The run at the start: so many steps may be made.
fn start_run(left: u64) -> Run
    ensures value { result ≡ start_run left }
{
    Run {
        left,
        tally: Tally {
            depth: 1,
            made: 0,
            status: Status::Running,
        },
        stop: None,
    }
}

// Reads a text, and says how its run begins where so many frames, objects and statics are lent. Read: the tables hold the
// program. Refused: they are zero.
pub fn begin(
    text: &[u8],
    n: u64,
    t: &mut [u64; 768],
    frames: usize,
    objects: usize,
    statics: usize,
) -> Result<Run, NotBegun>
    ensures begun { result ≡ begun_by (read_program text.now) n frames objects statics }
    ensures tables { t.new ≡ tables_after (read_program text.now) (replicate 768 0) }
{
    if let Err(refused) = reader::fill(text, &mut *t) {
        return Err(NotBegun::Refused {
            number: refused.number(),
            line: refused.line(),
        });
    }
    if suffices(frames, objects, statics) {
        return Ok(start_run(n.min(1_000_000)));
    }
    Err(NotBegun::Short)
}

// Why a run goes no further that nothing stopped.
fn at_limit(status: Status) -> Halt
    ensures value { result ≡ limit_halt status }
{
    match status {
        Status::Running | Status::Raised(_) => Halt::StepsMade,
        Status::Done => Halt::Done,
        Status::Uncaught(_) => Halt::Uncaught,
        Status::Failed(fault) => Halt::Faulted(fault),
    }
}

fn halt_of(k: Run) -> Halt
    ensures value { result ≡ halt_of k }
{
    match k.stop {
        None => at_limit(k.tally.status),
        Some(Stop::Store) => Halt::FullStore,
        Some(Stop::Stack) => Halt::FullStack,
        Some(Stop::Outside) => Halt::Outside,
    }
}

fn pending_of(status: Status) -> Option<u32>
    ensures value { result ≡ pending_of status }
{
    match status {
        Status::Raised(o) | Status::Uncaught(o) => Some(o),
        Status::Running | Status::Done | Status::Failed(_) => None,
    }
}

// The answer, from the run at the start and in the end.
pub fn ended(first: Run, last: Run) -> Outcome
    ensures value { result ≡ ran_to first last }
{
    let tally = last.tally;
    Outcome::Ran {
        halt: halt_of(last),
        steps: first.left.saturating_sub(last.left),
        frames: tally.depth,
        objects: tally.made,
        pending: pending_of(tally.status),
    }
}
