// Dispatch: the classes from which a virtual call leads to a method, by rising class number.
ghost use Rattle.std.specs.Prelude.{◌≡◌, ◌&&◌, ℕ, ◌<◌, ltb};
ghost use Rattle.mask.specs.Mask.{has};
ghost use Rattle.program.specs.Program.{class_count, method_count};
ghost use Rattle.program.specs.Tables.{program_in};
ghost use Rattle.search.specs.Search.{answers, method_in};
ghost use Rattle.flow.specs.Flows.{some, is_found};
ghost use Rattle.sets.specs.Sets.{leads};
ghost use Rattle.sets.specs.Inside.{leads_by, named};

use crate::{above_in, add};
use mask::Mask;

// Whether method m is virtual, with this name and argument count.
pub fn is_named(t: &[u64; 768], name: usize, count: usize, m: usize) -> bool
    ensures value { result ≡ named (program_in t.now) name count m }
{
    program::method_name(t, m) == name
        && program::method_kind(t, m) == 0
        && program::arguments(t, m) == count
}

// The classes that themselves have a virtual method with this name and argument count.
fn owners(t: &[u64; 768], name: usize, count: usize) -> Mask
    ensures bits { let p = program_in t.now in
        ((k : ℕ) → k < 64 → has result k ≡ some (method_count p) (answers p k name count)) }
{
    let mut set = Mask::empty();
    for m in 0..program::method_count(t) {
        set = add(
            set,
            program::method_class(t, m),
            is_named(t, name, count, m),
        );
    }
    set
}

// Whether a call leads to method q from class c, by a method of c itself.
fn owns(t: &[u64; 768], c: usize, name: usize, count: usize, q: usize) -> bool
    ensures value { result ≡ is_found (method_in (program_in t.now) c name count) q }
{
    search::method_in(t, c, name, count) == Some(q)
}

// Whether class k leads where class c does by a method of its own, where the superclasses in the set do.
fn is_leading(t: &[u64; 768], set: Mask, owners: Mask, own: bool, c: usize, k: usize) -> bool
    ensures value { result ≡ leads_by (program_in t.now) set owners own c k }
{
    if owners.has(k) {
        own && k == c
    } else {
        above_in(t, set, k)
    }
}

// The classes that lead to method q, called by its own name and argument count.
pub fn leading_set(t: &[u64; 768], q: usize) -> Mask
    ensures bits { let p = program_in t.now in
        ((k : ℕ) → has result k ≡ ltb k (class_count p) && leads p q k) }
{
    let name = program::method_name(t, q);
    let count = program::arguments(t, q);
    let c = program::method_class(t, q);
    let others = owners(t, name, count);
    let own = owns(t, c, name, count, q);
    let mut set = Mask::empty();
    for k in 0..program::class_count(t) {
        set = add(set, k, is_leading(t, set, others, own, c, k));
    }
    set
}
