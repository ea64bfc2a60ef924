// What rules 4 and 5 ask of a field of each class in a set. Every function takes any words and numbers.
#![tactic(auto)]

ghost use Rattle.std.specs.Prelude.{◌≡◌};
ghost use Rattle.slots.specs.Layout.{claim_in};
ghost use Rattle.classes.specs.Fields.{from_fields, into_fields};

use mask::Mask;
use slots::Slot;

// Whether the mask of field x of each class in the set goes into a mask. No program has a class past 59.
pub fn from_fields(w: &[u64; 9712], set: Mask, x: usize, into: Mask) -> bool
    ensures value { result ≡ from_fields (claim_in w.now) set x into }
{
    (0..60).all(|k| !set.has(k) || slots::mask(w, Slot::Field(k, x)).subset(into))
}

// Whether a mask goes into that of field x of each class in the set.
pub fn into_fields(w: &[u64; 9712], set: Mask, x: usize, from: Mask) -> bool
    ensures value { result ≡ into_fields (claim_in w.now) set x from }
{
    (0..60).all(|k| !set.has(k) || from.subset(slots::mask(w, Slot::Field(k, x))))
}
