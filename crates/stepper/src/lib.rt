// The stepper: runs a program text for at most n steps, in frames, objects and statics that the caller lends.
#![tactic(auto)]

ghost use Rattle.std.specs.Prelude.{◌≡◌};
ghost use Rattle.bounded.specs.Step.{number_of, values_of, stepping_number, stepping_values};
ghost use Rattle.bounded.specs.Lent.{lending, frames_left, objects_left, statics_left};
ghost use Rattle.drive.specs.Models.{done, lent};
ghost use Rattle.stepper.specs.Start.{start_done};

use bounded::Outcome;
use cells::{Frame, Object, Value};
use drive::Lent;
use shift::Run;

// Makes lent slices zero as far as a state reaches, and makes a run.
#[tactic(auto, unfolding(crate::specs::Start::start_done))]
fn start(
    t: &[u64; 768],
    frames: &mut [Frame],
    objects: &mut [Object],
    statics: &mut [Value],
    first: Run,
) -> Run
    ensures after { let before = lent frames.old objects.old statics.old in
        let after = lent frames.new objects.new statics.new in
        done result after ≡ start_done t.now before first }
{
    store::fill(frames, 32, Frame::default());
    store::fill(objects, 256, Object::default());
    store::fill(statics, 16, Value::default());
    let mut m = Lent {
        frames,
        objects,
        statics,
    };
    rounds::run(t, &mut m, first)
}

// Runs a program text for at most n steps. Refused, or short of memory: lent memory is as it was. Else it holds the state.
pub fn step(
    text: &[u8],
    n: u64,
    frames: &mut [Frame],
    objects: &mut [Object],
    statics: &mut [Value],
) -> Outcome
    ensures answer { let x = lending text.now n frames.old objects.old statics.old in
        (number_of result ≡ stepping_number x) × (values_of result ≡ stepping_values x) }
    ensures memory { let x = lending text.now n frames.old objects.old statics.old in
        (frames.new ≡ frames_left x frames.old)
        × (objects.new ≡ objects_left x objects.old)
        × (statics.new ≡ statics_left x statics.old) }
{
    let mut t = [0u64; 768];
    match begun::begin(text, n, &mut t, frames.len(), objects.len(), statics.len()) {
        Ok(first) => {
            let last = start(&t, frames, objects, statics, first);
            begun::ended(first, last)
        }
        Err(e) => e.into(),
    }
}
