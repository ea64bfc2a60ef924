// What a step with an object pending comes to.
ghost use Rattle.std.specs.Prelude.{◌≡◌};
ghost use Rattle.program.specs.Tables.{program_in};
ghost use Rattle.shift.specs.Shift.{unwound_by, handled, unwound};

use super::{At, Shift, Stop, counts, effects, top_of};
use cells::Value;
use turn::Status;

// What is found in the top frame takes object o, so that the frame goes to the target of its handler with o as its result; or the
// frame is dropped, and o stays pending.
fn unwound_by(t: &[u64; 768], h: At, o: u32, m: u32, found: Option<usize>) -> Shift
    ensures value { result ≡ unwound_by (program_in t.now) h o m found }
{
    let run = h.run;
    let top = top_of(run.tally.depth);
    match found {
        Some(j) => Shift {
            resumed: top,
            value: Value::reference(o),
            moved: top,
            next: (program::handler_target(t, m as usize, j) % 4294967296) as u32,
            ..effects::only(counts::with_status(run, Status::Running))
        },
        None => Shift {
            popped: top,
            ..effects::only(counts::left_by(run, Status::Uncaught(o), Status::Raised(o)))
        },
    }
}

// The top frame, at address a of method m, has a handler of a class or is dropped.
fn handled(t: &[u64; 768], h: At, m: u32, a: u32, class: u32) -> Shift
    ensures value { result ≡ handled (program_in t.now) h m a class }
{
    let found = search::handler_for(t, m as usize, a as usize, class as usize);
    match h.run.tally.status {
        Status::Raised(o) => unwound_by(t, h, o, m, found),
        _ => unwound_by(t, h, 0, m, found), // callers pass a status that has an object
    }
}

// A step with an object pending, of that class, whose top frame is at address a of method m.
pub fn unwound(t: &[u64; 768], h: At, m: u32, a: u32, class: u32) -> Shift
    ensures value { result ≡ unwound (program_in t.now) h m a class }
{
    if program::code_length(t, m as usize) <= a as usize {
        return effects::only(counts::stopped(h.run, Stop::Outside));
    }
    handled(t, h, m, a, class)
}
