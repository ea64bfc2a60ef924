// Sets of a program's classes, made once a check: of each class those at or below it, of each method those that lead to it. Every
// function takes any tables.
#![tactic(auto)]

mod dispatch; // dispatch.rt: of each method the classes that lead to it
mod held; // held.rt: the sets in words that a caller holds

ghost use Rattle.std.specs.Prelude.{◌≡◌, ◌&&◌, ◌||◌, ℕ, ◌<◌, eqb, ltb, get_or};
ghost use Rattle.mask.specs.Mask.{has};
ghost use Rattle.program.specs.Program.{class_count};
ghost use Rattle.program.specs.Tables.{program_in};
ghost use Rattle.search.specs.Search.{below, has_field, catches, virtual_callee};
ghost use Rattle.flow.specs.Flows.{is_found};
ghost use Rattle.sets.specs.Sets.{set_word, fails_cast, sets_of};
ghost use Rattle.sets.specs.Inside.{above_in, below_by};

pub use held::{below, caught, classes, fails_cast, fill, leading, with_field};
use mask::Mask;

// A program's tables and the sets of its classes, made of them.
#[derive(Clone, Copy)]
pub struct Sets<'a> {
    pub tables: &'a [u64; 768],
    words: &'a [u64; 80],
    pub ghost made: { words.now ≡ sets_of (program_in tables.now) },
}

impl<'a> Sets<'a> {
    // The sets of the program in tables, made in words that are lent.
    pub fn of(tables: &'a [u64; 768], words: &'a mut [u64; 80]) -> Self
        ensures tables { result.tables.now ≡ tables.now }
    {
        fill(tables, &mut *words);
        Self { tables, words }
    }

    // The set of all classes.
    pub fn classes(&self) -> Mask
        ensures bits { (k : ℕ) → has result k ≡ ltb k (class_count (program_in self.now.tables.now)) }
    {
        Mask {
            bits: self.words[60],
        }
    }

    // The set of the classes at or below class c.
    pub fn below(&self, c: usize) -> Mask
        ensures bits { let p = program_in self.now.tables.now in
            ((k : ℕ) → has result k ≡ ltb k (class_count p) && below p k c) }
    {
        if c < 60 {
            Mask {
                bits: self.words[c],
            }
        } else {
            Mask::empty()
        }
    }

    // The classes in a mask that have a field.
    pub fn with_field(&self, mask: Mask, field: u8) -> Mask
        ensures bits { let p = program_in self.now.tables.now in
            ((k : ℕ) → has result k ≡ has mask k && (ltb k (class_count p) && has_field p k field)) }
    {
        mask.common(self.below(program::field_class(self.tables, field as usize)))
    }

    // Whether a class in a mask is not at or below class c.
    pub fn fails_cast(&self, mask: Mask, c: usize) -> bool
        ensures value { result ≡ fails_cast (program_in self.now.tables.now) mask c }
    {
        !mask
            .common(self.classes())
            .without(self.below(c))
            .is_empty()
    }

    // The classes in a mask that handler h catches at an address.
    pub fn caught(&self, m: usize, pc: usize, mask: Mask, h: usize) -> Mask
        ensures bits { let p = program_in self.now.tables.now in
            ((k : ℕ) → has result k ≡ has mask k && (ltb k (class_count p) && catches p m pc k h)) }
    {
        let t = self.tables;
        if program::handler_from(t, m, h) <= pc && pc < program::handler_to(t, m, h) {
            mask.common(self.below(program::handler_class(t, m, h)))
        } else {
            Mask::empty()
        }
    }

    // The classes in a mask that lead to method q, called by this name and argument count.
    pub fn leading(&self, mask: Mask, name: usize, count: usize, q: usize) -> Mask
        ensures bits { let p = program_in self.now.tables.now in
            ((k : ℕ) → has result k ≡ ltb k (class_count p) && (has mask k && is_found (virtual_callee p k name count) q)) }
    {
        if q < 16 && dispatch::is_named(self.tables, name, count, q) {
            mask.common(Mask {
                bits: self.words[64 + q],
            })
        } else {
            Mask::empty()
        }
    }
}

// The set, with class k if it is to be in it.
pub fn add(set: Mask, k: usize, is_in: bool) -> Mask
    ensures bits { (i : ℕ) → has result i ≡ has set i || (eqb i k && (ltb i 64 && is_in)) }
{
    if is_in { set.with(k) } else { set }
}

// Whether the set has the superclass of class k, if its number is less.
fn above_in(t: &[u64; 768], set: Mask, k: usize) -> bool
    ensures value { result ≡ above_in (program_in t.now) set k }
{
    let s = program::superclass(t, k);
    s < k && set.has(s)
}

// Whether class k is class j, or its superclass is in the set.
fn is_below(t: &[u64; 768], set: Mask, j: usize, k: usize) -> bool
    ensures value { result ≡ below_by (program_in t.now) set j k }
{
    k == j || above_in(t, set, k)
}

// The classes at or below class j. No class before it is.
fn below_set(t: &[u64; 768], j: usize) -> Mask
    ensures bits { let p = program_in t.now in
        ((k : ℕ) → has result k ≡ ltb k (class_count p) && below p k j) }
{
    let mut set = Mask::empty();
    for k in j..program::class_count(t) {
        set = add(set, k, is_below(t, set, j, k));
    }
    set
}

// All classes.
fn class_set(t: &[u64; 768]) -> Mask
    ensures bits { (k : ℕ) → has result k ≡ ltb k (class_count (program_in t.now)) }
{
    let mut set = Mask::empty();
    for k in 0..program::class_count(t) {
        set = set.with(k);
    }
    set
}

// Word j of the sets.
fn set_word(t: &[u64; 768], j: usize) -> u64
    ensures value { result ≡ set_word (program_in t.now) j }
{
    match j {
        0..60 => below_set(t, j).bits,
        60..64 => class_set(t).bits,
        _ => dispatch::leading_set(t, j - 64).bits,
    }
}
