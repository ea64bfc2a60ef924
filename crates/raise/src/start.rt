// Rules 0 and 1: fields, statics, registers and results that start at zero. They answer what got new bits.
ghost use Rattle.std.specs.Prelude.{◌<◌};
ghost use Rattle.program.specs.Program.{class_count, method_count};
ghost use Rattle.program.specs.Tables.{program_in};
ghost use Rattle.reader.specs.Formed.{Formed};
ghost use Rattle.flow.specs.Rules.{initial_memory, entry};
ghost use Rattle.slots.specs.Layout.{claim_in};
ghost use Rattle.carry.specs.Carried.{class_fields, all_fields, all_statics};
ghost use Rattle.order.specs.Raised.{Raised};
ghost use Rattle.raise.specs.Inside.{zero_field};

use crate::words::{join, mark};
use mask::Mask;
use slots::Slot;

// Zero into the registers of a method that hold no argument, and into its result.
pub fn entry(t: &[u64; 768], w: &mut [u64; 9712], m: usize) -> u64
    ensures raised { let p = program_in t.now in
        let c = claim_in w.old in
        let d = claim_in w.new in
        (Formed p → m < method_count p → Raised (entry p m) c d) }
{
    for r in 0..carry::locals(t, m) {
        join(&mut *w, Slot::Register(m, 0, r), Mask::of(62));
    }
    mark(join(w, Slot::Result(m, 0), Mask::of(62)), 0)
}

// Zero into field x of class k, if the class has it.
fn field_of(t: &[u64; 768], w: &mut [u64; 9712], k: usize, x: usize)
    ensures raised { let p = program_in t.now in
        let c = claim_in w.old in
        let d = claim_in w.new in
        (Formed p → k < class_count p → Raised (zero_field p k x) c d) }
{
    if search::has_field(t, k, x) {
        join(w, Slot::Field(k, x), Mask::of(62));
    }
}

// Zero into the fields of class k.
fn fields_of(t: &[u64; 768], w: &mut [u64; 9712], k: usize)
    ensures raised { let p = program_in t.now in
        let c = claim_in w.old in
        let d = claim_in w.new in
        (Formed p → k < class_count p → Raised (class_fields p k) c d) }
{
    for x in 0..program::field_count(t) {
        field_of(t, &mut *w, k, x);
    }
}

fn all_fields(t: &[u64; 768], w: &mut [u64; 9712])
    ensures raised { let p = program_in t.now in
        let c = claim_in w.old in
        let d = claim_in w.new in
        (Formed p → Raised (all_fields p) c d) }
{
    for k in 0..program::class_count(t) {
        fields_of(t, &mut *w, k);
    }
}

fn all_statics(t: &[u64; 768], w: &mut [u64; 9712])
    ensures raised { let p = program_in t.now in
        let c = claim_in w.old in
        let d = claim_in w.new in
        (Formed p → Raised (all_statics p) c d) }
{
    for x in 0..program::static_count(t) {
        join(&mut *w, Slot::Static(x), Mask::of(62));
    }
}

// Zero into every field and static.
pub fn initial_memory(t: &[u64; 768], w: &mut [u64; 9712])
    ensures raised { let p = program_in t.now in
        let c = claim_in w.old in
        let d = claim_in w.new in
        (Formed p → Raised (initial_memory p) c d) }
{
    all_fields(t, &mut *w);
    all_statics(t, w)
}
