// The kinds of steps that do not stay in their frame, and what each comes to of what it looks at.
ghost use Rattle.std.specs.Prelude.{◌≡◌};
ghost use Rattle.shift.specs.Kinds.{Shifting, make_shifting, new_shifting, static_shifting, virtual_shifting, leave_shifting, throw_shifting, unwind_shifting};
ghost use Rattle.shift.specs.Shift.{returned_in};

use super::{At, Seen, Shift, asks, counts, effects, unwind};
use cells::Value;
use machine::Effect;
use turn::Status;

// A kind of step that does not stay in its frame.
pub trait Kind {
    ghost shifting: { Shifting };

    // What the step comes to.
    fn shift(t: &[u64; 768], h: At, e: Seen) -> Shift
        ensures value { result ≡ shifting t.now h e };
}

// new-instance.
pub struct Make;

impl Kind for Make {
    ghost shifting = { make_shifting };

    fn shift(t: &[u64; 768], h: At, e: Seen) -> Shift {
        effects::made(h, site::field_a(h.word), site::field_b(h.word))
    }
}

// An instruction that raises a new object.
pub struct RaiseNew;

impl Kind for RaiseNew {
    ghost shifting = { new_shifting };

    fn shift(t: &[u64; 768], h: At, e: Seen) -> Shift {
        effects::raised_new(h, asks::raised_class(h.how))
    }
}

// invoke-static.
pub struct CallStatic;

impl Kind for CallStatic {
    ghost shifting = { static_shifting };

    fn shift(t: &[u64; 768], h: At, e: Seen) -> Shift {
        effects::called(t, h, site::field_a(h.word) as usize, site::field_c(h.word))
    }
}

// invoke-virtual.
pub struct CallVirtual;

impl Kind for CallVirtual {
    ghost shifting = { virtual_shifting };

    fn shift(t: &[u64; 768], h: At, e: Seen) -> Shift {
        let did = decide::objects::virtual_call(
            t,
            e.class as usize,
            site::field_a(h.word),
            site::field_b(h.word),
            site::field_c(h.word),
            e.value.into(),
        );
        let run = h.run;
        match did {
            Effect::Call { method, first } => effects::called(t, h, method, first),
            Effect::RaiseNew { class } => effects::raised_new(h, class),
            Effect::Fail { fault } => {
                effects::only(counts::with_status(run, Status::Failed(fault)))
            }
            _ => effects::only(run),
        }
    }
}

// What a return gives: a register's value, or null.
fn returned(opcode: u8, x: Value) -> machine::Value
    ensures value { result ≡ returned_in opcode x }
{
    if opcode == 16 {
        return x.into();
    }
    machine::Value::Number(0)
}

// return and return-void.
pub struct Leave;

impl Kind for Leave {
    ghost shifting = { leave_shifting };

    fn shift(t: &[u64; 768], h: At, e: Seen) -> Shift {
        effects::exited(h, e.below, returned(h.opcode, e.value))
    }
}

// throw.
pub struct Throw;

impl Kind for Throw {
    ghost shifting = { throw_shifting };

    fn shift(t: &[u64; 768], h: At, e: Seen) -> Shift {
        let did = decide::objects::throw_value(t, e.class as usize, e.value.into());
        let run = h.run;
        match did {
            Effect::Raise { object } => {
                effects::only(counts::with_status(run, Status::Raised(object)))
            }
            Effect::RaiseNew { class } => effects::raised_new(h, class),
            Effect::Fail { fault } => {
                effects::only(counts::with_status(run, Status::Failed(fault)))
            }
            _ => effects::only(run),
        }
    }
}

// A step with an object pending.
pub struct Unwind;

impl Kind for Unwind {
    ghost shifting = { unwind_shifting };

    fn shift(t: &[u64; 768], h: At, e: Seen) -> Shift {
        unwind::unwound(t, h, e.method, e.address, e.class)
    }
}
