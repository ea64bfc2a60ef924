// A claim's masks in words, and the functions that read and write them. Every function takes any words and any numbers: a slot
// that no program has gives a mask with no bit.
#![tactic(auto)]

ghost use Rattle.std.specs.Prelude.{◌≡◌, set};
ghost use Rattle.slots.specs.Layout.{row_of, place_of, claim_in};
ghost use Rattle.slots.specs.Named.{slot_of};

use mask::Mask;

// A slot of a claim, by the numbers that name it: what one of its masks is of.
#[derive(Clone, Copy)]
pub enum Slot {
    // A register of a method at an address.
    Register(usize, usize, usize),
    // The result of a method at an address.
    Result(usize, usize),
    // A field of a class.
    Field(usize, usize),
    Static(usize),
    // What a method returns, and the exceptions that leave it.
    Returned(usize),
    Leaving(usize),
}

// The place of register 0 at an address of a method.
#[tactic(auto, unfolding(crate::specs::Layout::row_of))]
pub fn row(m: usize, pc: usize) -> usize
    ensures value { result ≡ row_of m pc }
{
    if m < 16 && pc < 32 {
        (m * 32 + pc) * 17
    } else {
        9712
    }
}

// The place of a slot's mask; past the last one of a slot that no program has.
#[inline(always)]
#[tactic(auto, using(crate::proofs::Places::row_most), unfolding(crate::specs::Layout::place_of))]
pub fn place(slot: Slot) -> usize
    ensures value { result ≡ place_of (slot_of slot) }
{
    match slot {
        Slot::Register(m, pc, r) if r < 16 => row(m, pc) + r,
        Slot::Result(m, pc) => row(m, pc) + 16,
        Slot::Field(c, x) if c < 60 && x < 16 => 8704 + c * 16 + x,
        Slot::Static(x) if x < 16 => 9664 + x,
        Slot::Returned(m) if m < 16 => 9680 + m,
        Slot::Leaving(m) if m < 16 => 9696 + m,
        _ => 9712,
    }
}

// The mask of a slot.
#[inline(always)]
#[tactic(auto, unfolding(crate::specs::Layout::claim_in))]
pub fn mask(w: &[u64; 9712], slot: Slot) -> Mask
    ensures value { result ≡ claim_in w.now (slot_of slot) }
{
    Mask {
        bits: w.get(place(slot)).copied().unwrap_or(0),
    }
}

// Writes an element, as a mask's bits; past the last one, nothing.
pub fn put<T: Copy>(w: &mut [T], i: usize, element: T)
    ensures memory { w.new ≡ set w.old i element }
{
    // Stays: the contract of `get_mut` says nothing of the elements after a write through it.
    if i < w.len() {
        w[i] = element;
    }
}
