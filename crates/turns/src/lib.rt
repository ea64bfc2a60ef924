// Steps that do not stay in their frame, done in the lent slices.
#![tactic(auto)]

ghost use Rattle.std.specs.Prelude.{◌≡◌};
ghost use Rattle.drive.specs.Models.{done, held, Same};
ghost use Rattle.turns.specs.Turns.{pass_one, pass_done, seen_in, shift_done, unwind_done, executed};

use cells::{Frame, Value};
use drive::Lent;
use shift::{
    At, CallStatic, CallVirtual, Kind, Leave, Make, Pass, RaiseNew, Run, Seen, Throw, Unwind,
};
use site::How;

// One argument is passed.
fn pass_one(t: &[u64; 768], m: &mut Lent, p: Pass) -> Pass
    ensures after { done result (held m.new) ≡ pass_one t.now (held m.old) p }
    ensures same { Same m.old m.new }
{
    let none = Value::default();
    let frames = &mut *m.frames;
    let x = store::register_at(frames, p.top, p.from, none);
    store::put_register(frames, p.above, p.to, x);
    shift::passed(p)
}

// All arguments are passed.
fn pass(t: &[u64; 768], m: &mut Lent, p: Pass) -> Pass
    ensures after { done result (held m.new) ≡ pass_done t.now (held m.old) p }
    ensures same { Same m.old m.new }
{
    let mut j = p;
    for i in 0..p.count {
        j = pass_one(t, m, j);
    }
    j
}

// What a step looks at.
fn seen(m: &Lent, h: At) -> Seen
    ensures value { result ≡ seen_in (held m.now) h }
{
    let w = shift::looked(h);
    let value = store::register_at(m.frames, w.top, w.first, w.none);
    Seen {
        method: store::method_at(m.frames, w.top, w.missing),
        address: store::address_at(m.frames, w.top, w.missing),
        below: store::address_at(m.frames, w.below, w.missing),
        value,
        class: store::class_at(m.objects, shift::thrown_at(h, value), w.class),
    }
}

// A step of a kind. It is compiled apart for each.
#[tactic(auto, unfolding(crate::specs::Turns::shift_done))]
fn done_by<K: Kind>(t: &[u64; 768], m: &mut Lent, h: At) -> Run
    ensures after { done result (held m.new) ≡ shift_done K.shifting t.now (held m.old) h }
    ensures same { Same m.old m.new }
{
    let e = K::shift(t, h, seen(m, h));
    store::put_element(m.frames, e.popped, Frame::default());
    store::put_result(m.frames, e.resumed, e.value);
    store::put_address(m.frames, e.moved, e.next);
    store::put_class(m.objects, e.made, e.class);
    store::put_register(m.frames, e.wrote, e.to, e.value);
    let _ = pass(t, m, e.pass);
    store::put_method(m.frames, e.entered, e.method);
    e.run
}

// A step with an object pending.
pub fn unwind(t: &[u64; 768], m: &mut Lent, h: At) -> Run
    ensures after { done result (held m.new) ≡ unwind_done t.now (held m.old) h }
    ensures same { Same m.old m.new }
{
    done_by::<Unwind>(t, m, h)
}

// A run that has come to an instruction that does not stay in its frame, to one that raises a new object, or to neither.
pub fn execute(t: &[u64; 768], m: &mut Lent, h: At) -> Run
    ensures after { done result (held m.new) ≡ executed t.now (held m.old) h }
    ensures same { Same m.old m.new }
{
    match h.how {
        How::Leaves => match h.opcode {
            13 => done_by::<CallStatic>(t, m, h),
            12 => done_by::<CallVirtual>(t, m, h),
            16 | 17 => done_by::<Leave>(t, m, h),
            18 => done_by::<Throw>(t, m, h),
            _ => done_by::<Make>(t, m, h),
        },
        How::Raises(_) => done_by::<RaiseNew>(t, m, h),
        _ => shift::others(h),
    }
}
