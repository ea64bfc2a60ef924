// Searches over a program in tables: superclass test, fields of a class, virtual search, handler search. The stepper uses them all; the
// claim's reader and the checker use `has_field` and `method_in`, and go by sets of classes else. Every function takes any words.
#![tactic(auto)]

ghost use Rattle.std.specs.Prelude.{◌≡◌};
ghost use Rattle.program.specs.Tables.{program_in};
ghost use Rattle.search.specs.Search.{below, has_field, method_in, virtual_callee, answers, catches, handler_for};

// Whether class c is top or below it. The class number falls at each call.
#[tactic(auto, using(crate::proofs::Upward::below_lower, crate::proofs::Upward::below_above, crate::proofs::Upward::below_end))]
pub fn below(t: &[u64; 768], c: usize, top: usize) -> bool
    ensures value { result ≡ below (program_in t.now) c top }
{
    if c <= top {
        return c == top; // the way upward goes by falling numbers
    }
    let s = program::superclass(t, c);
    s < c && below(t, s, top) // else no class is above
}

#[tactic(auto, unfolding(crate::specs::Search::has_field))]
#[inline(always)]
pub fn has_field(t: &[u64; 768], c: usize, f: usize) -> bool
    ensures value { result ≡ has_field (program_in t.now) c f }
{
    f < program::field_count(t) && below(t, c, program::field_class(t, f))
}

// Whether method m is virtual, of class c, with this name and argument count.
#[tactic(auto, unfolding(crate::specs::Search::answers))]
#[inline(always)]
fn answers(t: &[u64; 768], c: usize, name: usize, count: usize, m: usize) -> bool
    ensures value { result ≡ answers (program_in t.now) c name count m }
{
    program::method_class(t, m) == c
        && program::method_name(t, m) == name
        && program::method_kind(t, m) == 0
        && program::arguments(t, m) == count
}

// The method of class c itself that a virtual call leads to.
#[inline(always)]
pub fn method_in(t: &[u64; 768], c: usize, name: usize, count: usize) -> Option<usize>
    ensures value { result ≡ method_in (program_in t.now) c name count }
{
    (0..program::method_count(t)).find(|&m| answers(t, c, name, count, m))
}

// The method that a virtual call leads to from class c: in c, then upward. The class number falls at each call.
#[tactic(auto, using(crate::proofs::Upward::callee_own, crate::proofs::Upward::callee_above, crate::proofs::Upward::callee_end))]
pub fn virtual_callee(t: &[u64; 768], c: usize, name: usize, count: usize) -> Option<usize>
    ensures value { result ≡ virtual_callee (program_in t.now) c name count }
{
    let found = method_in(t, c, name, count);
    if found.is_some() {
        return found;
    }
    let above = program::superclass(t, c);
    if above < c {
        virtual_callee(t, above, name, count)
    } else {
        None
    }
}

// Whether handler h of method m covers the address and catches the class.
#[tactic(auto, unfolding(crate::specs::Search::catches))]
fn catches(t: &[u64; 768], m: usize, pc: usize, c: usize, h: usize) -> bool
    ensures value { result ≡ catches (program_in t.now) m pc c h }
{
    program::handler_from(t, m, h) <= pc
        && pc < program::handler_to(t, m, h)
        && below(t, c, program::handler_class(t, m, h))
}

// The number of the handler of method m at an address for an exception of class c: by rising number, the highest that fits; 0 is the
// last in the text.
pub fn handler_for(t: &[u64; 768], m: usize, pc: usize, c: usize) -> Option<usize>
    ensures value { result ≡ handler_for (program_in t.now) m pc c }
{
    let mut found = None;
    for h in 0..program::handler_count(t, m) {
        if catches(t, m, pc, c, h) {
            found = Some(h);
        }
    }
    found
}
