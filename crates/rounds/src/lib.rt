// The stepper's run, in the lent slices: the steps that stay in a frame, then one that does not, again and again.
#![tactic(auto)]

ghost use Rattle.std.specs.Prelude.{◌≡◌};
ghost use Rattle.drive.specs.Models.{done, held, Same};
ghost use Rattle.shift.specs.Stay.{stay_of};
ghost use Rattle.rounds.specs.Rounds.{method_in, address_in, one_done, stay_done, forth_done, back_done, round_done, run_done};

use drive::Lent;
use shift::{Run, Stay};

// One instruction of the frame.
fn one(t: &[u64; 768], m: &mut Lent, k: Stay) -> Stay
    ensures after { done result (held m.new) ≡ one_done t.now (held m.old) k }
    ensures same { Same m.old m.new }
{
    let s = shift::site_of(t, k);
    let g = work::perform(t, m, s);
    shift::went(k, g)
}

// The instructions that stay in the frame.
fn stay(t: &[u64; 768], m: &mut Lent, k: Stay) -> Stay
    ensures after { done result (held m.new) ≡ stay_done t.now (held m.old) k }
    ensures same { Same m.old m.new }
{
    let mut j = k;
    while shift::goes(t, j) {
        j = one(t, m, j);
    }
    j
}

// A run that stays in its top frame: where that frame is.
fn staying(m: &Lent, k: Run) -> Stay
    ensures value { let before = held m.now in result ≡ stay_of k (method_in before k) (address_in before k) }
{
    let h = shift::raised_at(k);
    let w = shift::looked(h);
    let method = store::method_at(m.frames, w.top, w.missing);
    let address = store::address_at(m.frames, w.top, w.missing);
    shift::stay_of(k, method, address)
}

// The steps that stay in the top frame, and one that does not.
#[tactic(auto, unfolding(crate::specs::Rounds::forth_done))]
fn forth(t: &[u64; 768], m: &mut Lent, k: Run) -> Run
    ensures after { done result (held m.new) ≡ forth_done t.now (held m.old) k }
    ensures same { Same m.old m.new }
{
    let s = staying(m, k);
    let j = stay(t, m, s);
    let e = shift::at_of(t, k, j);
    turns::execute(t, m, e)
}

// A step with an object pending.
fn back(t: &[u64; 768], m: &mut Lent, k: Run) -> Run
    ensures after { done result (held m.new) ≡ back_done t.now (held m.old) k }
    ensures same { Same m.old m.new }
{
    let h = shift::raised_at(k);
    turns::unwind(t, m, h)
}

fn round(t: &[u64; 768], m: &mut Lent, k: Run) -> Run
    ensures after { done result (held m.new) ≡ round_done t.now (held m.old) k }
    ensures same { Same m.old m.new }
{
    if shift::is_running(k) {
        forth(t, m, k)
    } else {
        back(t, m, k)
    }
}

// Makes the steps that may still be made, until the run ends or no further one can be.
pub fn run(t: &[u64; 768], m: &mut Lent, k: Run) -> Run
    ensures after { done result (held m.new) ≡ run_done t.now (held m.old) k }
    ensures same { Same m.old m.new }
{
    let mut j = k;
    while shift::runs(j) {
        j = round(t, m, j);
    }
    j
}
