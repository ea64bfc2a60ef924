// Rules 9 and 10 of the exceptions that are raised at an address, by the instruction or by a callee: those in a mask.
ghost use Rattle.std.specs.Prelude.{◌≡◌, ◌<◌};
ghost use Rattle.program.specs.Tables.{program_in};
ghost use Rattle.slots.specs.Layout.{claim_in};
ghost use Rattle.sets.specs.Sets.{sets_of};
ghost use Rattle.raise.specs.Raises.{Flowing, Leaving};
ghost use Rattle.raise.specs.Inside.{taken_into, raised_flows, own_flows};

use crate::rows::carry;
use crate::words::{OUT, join, mark};
use mask::Mask;
use sets::Sets;
use slots::Slot;

// Registers joined into those at another address, and the classes in a mask into its result, if there are any.
fn take_into(t: &[u64; 768], w: &mut [u64; 9712], m: usize, pc: usize, mask: Mask, to: usize) -> u64
    ensures raised { let p = program_in t.now in
        let c = claim_in w.old in
        let d = claim_in w.new in
        Flowing p m to (taken_into p m pc to mask) c d }
{
    if mask.is_empty() {
        return 0;
    }
    let new = carry(t, &mut *w, m, pc, to);
    new | mark(join(w, Slot::Result(m, to), mask), to)
}

// Handler by handler in the order of the text, which is by falling number, each takes those that it catches of the rest; what is left
// leaves the method.
fn by_handler(sets: &Sets<'_>, w: &mut [u64; 9712], m: usize, pc: usize, mask: Mask) -> u64
    ensures raised { let p = program_in sets.now.tables.now in
        let c = claim_in w.old in
        let d = claim_in w.new in
        Leaving p m (raised_flows p m pc mask) c d }
{
    let t = sets.tables;
    let mut rest = mask.common(sets.classes());
    let mut new: u64 = 0;
    for h in (0..program::handler_count(t, m)).rev() {
        let taken = sets.caught(m, pc, rest, h);
        new |= take_into(t, &mut *w, m, pc, taken, program::handler_target(t, m, h));
        rest = rest.without(taken);
    }
    new | mark(join(w, Slot::Leaving(m), rest), OUT)
}

// The same, answered at once where there are none.
pub fn raised_by(sets: &Sets<'_>, w: &mut [u64; 9712], m: usize, pc: usize, mask: Mask) -> u64
    ensures raised { let p = program_in sets.now.tables.now in
        let c = claim_in w.old in
        let d = claim_in w.new in
        Leaving p m (raised_flows p m pc mask) c d }
{
    if mask.is_empty() {
        return 0;
    }
    by_handler(sets, w, m, pc, mask)
}

// Of a class that an instruction raises itself, where it may.
pub fn own_by(
    sets: &Sets<'_>,
    w: &mut [u64; 9712],
    m: usize,
    pc: usize,
    may: bool,
    class: usize,
) -> u64
    ensures raised { let p = program_in sets.now.tables.now in
        let c = claim_in w.old in
        let d = claim_in w.new in
        (class < 64 → Leaving p m (own_flows p m pc may class) c d) }
{
    if may {
        raised_by(sets, w, m, pc, Mask::of(class))
    } else {
        0
    }
}

// The same for a caller that holds a program's sets in words: they are made anew, so that nothing is asked of the words.
pub fn raised(
    t: &[u64; 768],
    w: &mut [u64; 9712],
    s: &[u64; 80],
    m: usize,
    pc: usize,
    mask: Mask,
) -> u64
    ensures raised { let p = program_in t.now in
        let c = claim_in w.old in
        let d = claim_in w.new in
        (s.now ≡ sets_of p → Leaving p m (raised_flows p m pc mask) c d) }
{
    let mut words = [0; 80];
    raised_by(&Sets::of(t, &mut words), w, m, pc, mask)
}

pub fn own(
    t: &[u64; 768],
    w: &mut [u64; 9712],
    s: &[u64; 80],
    m: usize,
    pc: usize,
    may: bool,
    class: usize,
) -> u64
    ensures raised { let p = program_in t.now in
        let c = claim_in w.old in
        let d = claim_in w.new in
        (s.now ≡ sets_of p → class < 64 → Leaving p m (own_flows p m pc may class) c d) }
{
    let mut words = [0; 80];
    own_by(&Sets::of(t, &mut words), w, m, pc, may, class)
}
