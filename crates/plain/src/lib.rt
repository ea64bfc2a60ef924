// The stepper over plain words: runs a program text for at most n steps, in words that the caller lends. It runs in frames, objects
// and statics of its own, and then writes them as words.
#![tactic(auto)]

mod words; // words.rt: what a run left, as words

ghost use Rattle.std.specs.Prelude.{◌≡◌, true, false, length};
ghost use Rattle.reader.specs.Read.{read_program};
ghost use Rattle.bounded.specs.Step.{stepping, stepping_number, stepping_values, frames_after, objects_after, statics_after, tables_left, enough, stepping_by, number_of, values_of};

use bounded::Outcome;
use cells::{Frame, Object, Value};
use words::put_all;

// Whether so many words are enough for 32 frames, 256 objects and 16 statics.
fn suffices(frames: usize, objects: usize, statics: usize) -> bool
    ensures value { result ≡ enough frames objects statics }
{
    608 <= frames && 4352 <= objects && 16 <= statics
}

// Runs a text in frames, objects and statics of its own, and writes what is left where a program ran.
fn begin(
    text: &[u8],
    n: u64,
    frames: &mut [u64],
    objects: &mut [u64],
    statics: &mut [u64],
) -> Outcome
    requires { enough (length frames.old) (length objects.old) (length statics.old) ≡ true }
    ensures answer { let x = stepping text.now n frames.old objects.old statics.old in
        (number_of result ≡ stepping_number x) × (values_of result ≡ stepping_values x) }
    ensures memory { let x = stepping text.now n frames.old objects.old statics.old in
        (frames.new ≡ frames_after x frames.old)
        × (objects.new ≡ objects_after x objects.old)
        × (statics.new ≡ statics_after x statics.old) }
{
    let mut own_frames = [Frame::default(); 32];
    let mut own_objects = [Object::default(); 256];
    let mut own_statics = [Value::default(); 16];
    let outcome = stepper::step(text, n, &mut own_frames, &mut own_objects, &mut own_statics);
    if let Outcome::Ran { .. } = outcome {
        put_all(frames, 0, &own_frames);
        put_all(objects, 0, &own_objects);
        put_all(statics, 0, &own_statics);
    }
    outcome
}

// What becomes of a text where too little memory is lent.
fn refusal(text: &[u8]) -> Outcome
    ensures answer { let x = stepping_by (read_program text.now) 0 false in
        (number_of result ≡ stepping_number x) × (values_of result ≡ stepping_values x) }
{
    let mut t = [0u64; 768];
    match reader::read(text, &mut t) {
        Ok(()) => Outcome::Short,
        Err(refused) => Outcome::Refused {
            number: refused.number(),
            line: refused.line(),
        },
    }
}

// Runs a program text for at most n steps. Refused, or short of memory: lent memory is as it was. Else it holds the state.
pub fn step(
    text: &[u8],
    n: u64,
    frames: &mut [u64],
    objects: &mut [u64],
    statics: &mut [u64],
) -> Outcome
    ensures answer { let x = stepping text.now n frames.old objects.old statics.old in
        (number_of result ≡ stepping_number x) × (values_of result ≡ stepping_values x) }
    ensures memory { let x = stepping text.now n frames.old objects.old statics.old in
        (frames.new ≡ frames_after x frames.old)
        × (objects.new ≡ objects_after x objects.old)
        × (statics.new ≡ statics_after x statics.old) }
{
    if suffices(frames.len(), objects.len(), statics.len()) {
        return begin(text, n, frames, objects, statics);
    }
    refusal(text)
}

// The same as `step`, in tables for the program that the caller lends: they hold the program where it ran, else they are as they were.
pub fn step_in(
    text: &[u8],
    n: u64,
    t: &mut [u64; 768],
    frames: &mut [u64],
    objects: &mut [u64],
    statics: &mut [u64],
) -> Outcome
    ensures answer { let x = stepping text.now n frames.old objects.old statics.old in
        (number_of result ≡ stepping_number x) × (values_of result ≡ stepping_values x) }
    ensures memory { let x = stepping text.now n frames.old objects.old statics.old in
        (frames.new ≡ frames_after x frames.old)
        × (objects.new ≡ objects_after x objects.old)
        × (statics.new ≡ statics_after x statics.old) }
    ensures tables { let x = stepping text.now n frames.old objects.old statics.old in
        t.new ≡ tables_left x (read_program text.now) t.old }
{
    if suffices(frames.len(), objects.len(), statics.len()) {
        let _ = reader::read(text, t); // a refusal is told by the run
        return begin(text, n, frames, objects, statics);
    }
    refusal(text)
}
