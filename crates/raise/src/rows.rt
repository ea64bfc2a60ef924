// Registers and result at one address joined into those at another, and the arguments of a call into its parameters. They answer the
// mark of the address, or of the callee, that got new bits.
ghost use Rattle.std.specs.Prelude.{◌≡◌, ◌+◌, ◌≤◌, length};
ghost use Rattle.program.specs.Tables.{program_in};
ghost use Rattle.flow.specs.Rules.{carried, onward};
ghost use Rattle.slots.specs.Layout.{claim_size, claim_in};
ghost use Rattle.carry.specs.Carried.{arguments_from};
ghost use Rattle.raise.specs.Raises.{Flowing, Calling};
ghost use Rattle.raise.specs.Inside.{RowsRaised};

use crate::words::{CALLEES, join, mark};
use mask::Mask;
use slots::Slot;

// The masks in n words from one place on joined into those from another. Answers the bits that are new.
fn join_words(w: &mut [u64], from: usize, into: usize, n: usize) -> Mask
    requires { (length w.old ≡ claim_size) × (from + n ≤ claim_size) × (into + n ≤ claim_size) }
    ensures raised { RowsRaised from into n (claim_in w.old) (claim_in w.new) }
{
    let mut new = Mask::empty();
    for r in 0..n {
        let mask = Mask { bits: w[from + r] };
        let old = Mask { bits: w[into + r] };
        let all = old.join(mask);
        w[into + r] = all.bits;
        new = new.join(all.without(old));
    }
    new
}

// All registers, at most the 16 of a row; none where the words have no row of one of the addresses.
pub fn carry(t: &[u64; 768], w: &mut [u64; 9712], m: usize, pc: usize, to: usize) -> u64
    ensures raised { let p = program_in t.now in
        let c = claim_in w.old in
        let d = claim_in w.new in
        Flowing p m to (carried p m pc to) c d }
{
    let from = slots::row(m, pc);
    let into = slots::row(m, to);
    let room = (9712 - from).min(9712 - into);
    let n = program::registers(t, m).min(16);
    mark(join_words(w, from, into, n.min(room)), to)
}

// All registers, and the result.
pub fn onward(t: &[u64; 768], w: &mut [u64; 9712], m: usize, pc: usize, to: usize) -> u64
    ensures raised { let p = program_in t.now in
        let c = claim_in w.old in
        let d = claim_in w.new in
        Flowing p m to (onward p m pc to) c d }
{
    let new = carry(t, &mut *w, m, pc, to);
    let mask = slots::mask(w, Slot::Result(m, pc));
    new | mark(join(w, Slot::Result(m, to), mask), to)
}

// The arguments of a call from number `from` on, of `count` in registers from `first` on, joined into the callee's parameters.
pub fn pass_arguments(
    t: &[u64; 768],
    w: &mut [u64; 9712],
    m: usize,
    pc: usize,
    q: usize,
    from: u8,
    count: u8,
    first: u8,
) -> u64
    ensures raised { let p = program_in t.now in
        let c = claim_in w.old in
        let d = claim_in w.new in
        Calling p q count (arguments_from p m pc q from count first) c d }
{
    let base = carry::locals(t, q);
    let mut new = Mask::empty();
    for i in from as usize..count as usize {
        let given = slots::mask(w, Slot::Register(m, pc, first as usize + i));
        new = new.join(join(&mut *w, Slot::Register(q, 0, base + i), given));
    }
    if q < 16 { mark(new, CALLEES + q) } else { 0 }
}
