// What is asked of a run: whether it goes on, and what it comes to.
ghost use Rattle.std.specs.Prelude.{◌≡◌};
ghost use Rattle.shift.specs.Stay.{raised_at, runs_on, is_running, raised_class, others_of};

use super::{At, Run, Stop, counts};
use site::How;
use turn::Status;

// A run with an object pending: it is looked at as a throw is.
pub fn raised_at(run: Run) -> At
    ensures value { result ≡ raised_at run }
{
    At {
        run,
        pc: 0,
        opcode: 18,
        word: 0,
        how: How::Went,
    }
}

// Whether a further step is to be made.
pub fn runs(run: Run) -> bool
    ensures value { result ≡ runs_on run }
{
    run.stop.is_none()
        && 0 < run.left
        && matches!(run.tally.status, Status::Running | Status::Raised(_))
}

pub fn is_running(run: Run) -> bool
    ensures value { result ≡ is_running run.tally.status }
{
    matches!(run.tally.status, Status::Running)
}

// The class of the new object that an instruction raises.
pub fn raised_class(how: How) -> u8
    ensures value { result ≡ raised_class how }
{
    match how {
        How::Raises(class) => class,
        _ => 0,
    }
}

// A run that comes to no such instruction: to a fault, to an address outside its method, or to its last step.
pub fn others(h: At) -> Run
    ensures value { result ≡ others_of h }
{
    let run = h.run;
    match h.how {
        How::Failed(fault) => counts::with_status(run, Status::Failed(fault)),
        _ if 0 < run.left => counts::stopped(run, Stop::Outside),
        _ => run,
    }
}
