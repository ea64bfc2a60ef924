// What an effect comes to that does not stay in its frame.
ghost use Rattle.std.specs.Prelude.{◌≡◌};
ghost use Rattle.program.specs.Tables.{program_in};
ghost use Rattle.shift.specs.Shift.{only, pass_to, grown_by, made_by, raised_new_by, called_by, exited_by};

use super::{At, Pass, Run, Shift, Stop, below_of, counts, top_of};
use cells::{NOWHERE, Value};
use turn::{Status, Tally};

// Nothing is written.
pub fn only(run: Run) -> Shift
    ensures value { result ≡ only run }
{
    Shift {
        popped: NOWHERE,
        resumed: NOWHERE,
        value: Value::default(),
        moved: NOWHERE,
        next: 0,
        made: NOWHERE,
        class: 0,
        wrote: NOWHERE,
        to: 16,
        pass: Pass {
            from: 0,
            to: 0,
            count: 0,
            top: 0,
            above: 0,
        },
        entered: NOWHERE,
        method: 0,
        run,
    }
}

// One object more, unless 256 are: the frame at `place` goes one on, and its register `to` refers to the object.
fn grown(h: At, class: u8, place: usize, to: usize, status: Status) -> Shift
    ensures value { result ≡ grown_by h class place to status }
{
    let run = h.run;
    let made = run.tally.made;
    if 256 <= made {
        return only(counts::stopped(run, Stop::Store));
    }
    let more = Tally {
        made: made + 1,
        status,
        ..run.tally
    };
    Shift {
        value: Value::reference(made),
        moved: place,
        next: h.pc as u32 + 1,
        made: made as usize,
        class: class as u32,
        wrote: place,
        to,
        ..only(counts::counted(run, more))
    }
}

// new-instance: register `to` of the top frame refers to the object.
pub fn made(h: At, to: u8, class: u8) -> Shift
    ensures value { result ≡ made_by h to class }
{
    let tally = h.run.tally;
    grown(h, class, top_of(tally.depth), to as usize, tally.status)
}

// The object is pending, and no frame changes.
pub fn raised_new(h: At, class: u8) -> Shift
    ensures value { result ≡ raised_new_by h class }
{
    grown(h, class, NOWHERE, 16, Status::Raised(h.run.tally.made))
}

// The arguments of method m stand in registers from `first` on.
fn pass_to(t: &[u64; 768], h: At, m: usize, first: u8) -> Pass
    ensures value { result ≡ pass_to (program_in t.now) h m first }
{
    let depth = h.run.tally.depth;
    let count = program::arguments(t, m);
    Pass {
        from: first as usize,
        to: program::registers(t, m).saturating_sub(count),
        count,
        top: top_of(depth),
        above: depth as usize,
    }
}

// A frame of a method is opened, unless 32 are.
pub fn called(t: &[u64; 768], h: At, method: usize, first: u8) -> Shift
    ensures value { result ≡ called_by (program_in t.now) h method first }
{
    let run = h.run;
    let depth = run.tally.depth;
    if 32 <= depth {
        return only(counts::stopped(run, Stop::Stack));
    }
    let opened = Tally {
        depth: depth + 1,
        ..run.tally
    };
    Shift {
        pass: pass_to(t, h, method, first),
        entered: depth as usize,
        method: (method % 4294967296) as u32,
        ..only(counts::counted(run, opened))
    }
}

// The top frame returns a value to the one below, whose address is that of its call and goes one on.
#[tactic(auto, using(crate::proofs::Places::following_is))]
pub fn exited(h: At, below: u32, value: machine::Value) -> Shift
    ensures value { result ≡ exited_by h below value }
{
    let run = h.run;
    let resumed = below_of(run.tally.depth);
    Shift {
        popped: top_of(run.tally.depth),
        resumed,
        value: value.into(),
        moved: resumed,
        next: below.wrapping_add(1),
        ..only(counts::left_by(run, Status::Done, Status::Running))
    }
}
