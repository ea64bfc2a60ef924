// The same sets in 80 words that a caller holds. Every function takes any tables and words; what three of them say of classes holds
// where the words are the program's sets.
ghost use Rattle.std.specs.Prelude.{◌≡◌, ◌&&◌, ℕ, ltb};
ghost use Rattle.mask.specs.Mask.{has};
ghost use Rattle.program.specs.Program.{class_count};
ghost use Rattle.program.specs.Tables.{program_in};
ghost use Rattle.search.specs.Search.{has_field, catches};
ghost use Rattle.sets.specs.Sets.{fails_cast, sets_of};
ghost use Rattle.sets.specs.Inside.{named, below_set, class_set, leading_set};

use crate::{dispatch, set_word};
use mask::Mask;

// Makes the sets of the program in tables.
pub fn fill(t: &[u64; 768], s: &mut [u64; 80])
    ensures memory { s.new ≡ sets_of (program_in t.now) }
{
    for j in 0..80 {
        slots::put(&mut *s, j, set_word(t, j));
    }
}

// The set of the classes at or below class c.
pub fn below(s: &[u64; 80], c: usize) -> Mask
    ensures value { result ≡ below_set s.now c }
{
    if c < 60 {
        Mask { bits: s[c] }
    } else {
        Mask { bits: 0 }
    }
}

// The set of all classes.
pub fn classes(s: &[u64; 80]) -> Mask
    ensures value { result ≡ class_set s.now }
{
    Mask { bits: s[60] }
}

// The classes in a mask that have a field.
pub fn with_field(t: &[u64; 768], s: &[u64; 80], mask: Mask, field: u8) -> Mask
    ensures bits { let p = program_in t.now in
        (s.now ≡ sets_of p → (k : ℕ) → has result k ≡ has mask k && (ltb k (class_count p) && has_field p k field)) }
{
    mask.common(below(s, program::field_class(t, field as usize)))
}

// Whether a class in a mask is not at or below class c.
pub fn fails_cast(t: &[u64; 768], s: &[u64; 80], mask: Mask, c: usize) -> bool
    ensures value { let p = program_in t.now in
        (s.now ≡ sets_of p → result ≡ fails_cast p mask c) }
{
    !mask.common(classes(s)).without(below(s, c)).is_empty()
}

// The classes in a mask that handler h catches at an address.
pub fn caught(t: &[u64; 768], s: &[u64; 80], m: usize, pc: usize, mask: Mask, h: usize) -> Mask
    ensures bits { let p = program_in t.now in
        (s.now ≡ sets_of p → (k : ℕ) → has result k ≡ has mask k && (ltb k (class_count p) && catches p m pc k h)) }
{
    if program::handler_from(t, m, h) <= pc && pc < program::handler_to(t, m, h) {
        mask.common(below(s, program::handler_class(t, m, h)))
    } else {
        Mask::empty()
    }
}

// The classes in a mask that lead to method q, called by this name and argument count.
pub fn leading(
    t: &[u64; 768],
    s: &[u64; 80],
    mask: Mask,
    name: usize,
    count: usize,
    q: usize,
) -> Mask
    ensures bits { let p = program_in t.now in
        ((k : ℕ) → has result k ≡ has mask k && (named p name count q && has (leading_set s.now q) k)) }
{
    if q < 16 && dispatch::is_named(t, name, count, q) {
        mask.common(Mask { bits: s[64 + q] })
    } else {
        Mask::empty()
    }
}
