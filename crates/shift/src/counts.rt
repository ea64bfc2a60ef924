// How far a run has come after a step.
ghost use Rattle.std.specs.Prelude.{◌≡◌};
ghost use Rattle.shift.specs.Shift.{counted, stopped, with_status, leaving};

use super::{Run, Stop};
use turn::{Status, Tally};

// A step is made, or cannot be.
pub fn counted(run: Run, tally: Tally) -> Run
    ensures value { result ≡ counted run tally }
{
    Run {
        left: run.left.saturating_sub(1),
        tally,
        ..run
    }
}

pub fn stopped(run: Run, stop: Stop) -> Run
    ensures value { result ≡ stopped run stop }
{
    Run {
        stop: Some(stop),
        ..run
    }
}

pub fn with_status(run: Run, status: Status) -> Run
    ensures value { result ≡ with_status run status }
{
    counted(
        run,
        Tally {
            status,
            ..run.tally
        },
    )
}

// The top frame is left, with one status if it was the last and another if not.
pub fn left_by(run: Run, last: Status, other: Status) -> Run
    ensures value { result ≡ leaving run last other }
{
    let depth = run.tally.depth;
    let status = if 1 < depth { other } else { last };
    let tally = Tally {
        depth: depth.saturating_sub(1),
        status,
        ..run.tally
    };
    counted(run, tally)
}
