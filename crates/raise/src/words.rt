// A mask joined into one word of a claim, and marks of the places that got new bits.
ghost use Rattle.std.specs.Prelude.{◌≡◌};
ghost use Rattle.slots.specs.Layout.{claim_in};
ghost use Rattle.slots.specs.Named.{slot_of};
ghost use Rattle.raise.specs.Raises.{Joins};

use mask::Mask;
use slots::Slot;

// The marks past those of addresses: the first of a callee, by number.
pub const CALLEES: usize = 32;

// What leaves the method or is returned.
pub const OUT: usize = 48;

// A field or a static.
pub const STORED: usize = 49;

// Joins a mask into that of a slot; where the words have none for it, nothing. Answers the bits that are new.
pub fn join(w: &mut [u64; 9712], slot: Slot, mask: Mask) -> Mask
    ensures joined { Joins (slot_of slot) mask (claim_in w.old) (claim_in w.new) }
{
    let i = slots::place(slot);
    if i >= 9712 {
        return Mask::empty();
    }
    let old = Mask { bits: w[i] };
    let all = old.join(mask);
    w[i] = all.bits;
    all.without(old)
}

// The mark of a place, where bits are new; of one past the last, none.
pub fn mark(new: Mask, place: usize) -> u64 {
    if new.is_empty() || place >= 64 {
        0
    } else {
        1 << place
    }
}
