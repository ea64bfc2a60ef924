// Masks that are made of others: what comes of numbers, of a cast and of fields; and a mask joined into fields.
ghost use Rattle.std.specs.Prelude.{◌≡◌, true, ◌&&◌, ℕ, ◌<◌, eqb};
ghost use Rattle.mask.specs.Mask.{has};
ghost use Rattle.program.specs.Tables.{program_in};
ghost use Rattle.flow.specs.Claim.{field_of, number_bit};
ghost use Rattle.flow.specs.Flows.{some};
ghost use Rattle.slots.specs.Layout.{place_of, claim_size, claim_in};
ghost use Rattle.sets.specs.Sets.{sets_of};
ghost use Rattle.order.specs.Raised.{Raised};
ghost use Rattle.raise.specs.Inside.{is_number, from_numbers, field_has, passes_cast, into_field, into_fields};

use crate::words::join;
use mask::Mask;
use sets::Sets;
use slots::Slot;

// The bit of a number.
pub fn of_number(value: i32) -> Mask
    ensures bits { (k : ℕ) → has result k ≡ eqb k (number_bit value) }
{
    if value == 0 {
        Mask::of(62)
    } else {
        Mask::of(63)
    }
}

// Both numbers' bits.
pub fn both_numbers() -> Mask
    ensures bits { (k : ℕ) → has result k ≡ is_number k }
{
    Mask::of(62).with(63)
}

// What comes of numbers: both numbers' bits, if both masks have a number's.
pub fn of_numbers(left: Mask, right: Mask) -> Mask
    ensures bits { (k : ℕ) → has result k ≡ from_numbers left right k }
{
    if left.has_number() && right.has_number() {
        both_numbers()
    } else {
        Mask::empty()
    }
}

// What passes a cast of a mask to a class: zero, and the classes at or below it.
pub fn passing_by(sets: &Sets<'_>, mask: Mask, class: usize) -> Mask
    ensures bits { let p = program_in sets.now.tables.now in
        ((k : ℕ) → has result k ≡ has mask k && passes_cast p class k) }
{
    mask.common(sets.below(class).with(62))
}

// The same for a caller that holds a program's sets in words: they are made anew, so that nothing is asked of the words.
pub fn passing(t: &[u64; 768], s: &[u64; 80], mask: Mask, class: usize) -> Mask
    ensures bits { let p = program_in t.now in
        (s.now ≡ sets_of p → (k : ℕ) → has result k ≡ has mask k && passes_cast p class k) }
{
    let mut words = [0; 80];
    passing_by(&Sets::of(t, &mut words), mask, class)
}

// The mask of field x of class k, if it is in the set; else none.
fn field_in(w: &[u64; 9712], set: Mask, x: usize, k: usize) -> Mask
    ensures bits { (j : ℕ) → has result j ≡ field_has (claim_in w.now) set x j k }
{
    if set.has(k) {
        slots::mask(w, Slot::Field(k, x))
    } else {
        Mask::empty()
    }
}

// What field x holds of the classes in the set.
pub fn from_fields(w: &[u64; 9712], set: Mask, x: usize) -> Mask
    ensures bits { (j : ℕ) → has result j ≡ some 60 (field_has (claim_in w.now) set x j) }
{
    let mut all = Mask::empty();
    for k in 0..60 {
        all = all.join(field_in(w, set, x, k));
    }
    all
}

// A mask joined into field x of class k, if it is in the set. Answers the bits that are new.
fn into_field(w: &mut [u64; 9712], set: Mask, x: usize, value: Mask, k: usize) -> Mask
    ensures raised { let c = claim_in w.old in
        let d = claim_in w.new in
        ((has set k ≡ true → place_of (field_of k x) < claim_size) → Raised (into_field set x value k) c d) }
{
    if set.has(k) {
        join(w, Slot::Field(k, x), value)
    } else {
        Mask::empty()
    }
}

// A mask joined into field x of the classes in the set. Answers the bits that are new.
pub fn into_fields(w: &mut [u64; 9712], set: Mask, x: usize, value: Mask) -> Mask
    ensures raised { let c = claim_in w.old in
        let d = claim_in w.new in
        (((k : ℕ) → has set k ≡ true → place_of (field_of k x) < claim_size) → Raised (into_fields set x value) c d) }
{
    let mut new = Mask::empty();
    for k in 0..60 {
        new = new.join(into_field(&mut *w, set, x, value, k));
    }
    new
}
