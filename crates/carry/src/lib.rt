// Rules 0 to 3 in code: fields, statics and entries that hold zero, and registers and results that flow on. Every function takes any
// tables and words: what it answers is said of the program and the claim that stand in them.
#![tactic(auto)]

ghost use Rattle.std.specs.Prelude.{◌≡◌, ℕ, ◌+◌, ◌-◌, ◌≤◌};
ghost use Rattle.mask.specs.Mask.{zero_bit};
ghost use Rattle.program.specs.Program.{registers, arguments};
ghost use Rattle.program.specs.Tables.{program_in};
ghost use Rattle.flow.specs.Flows.{◌∈◌, ◌⊆◌, kept};
ghost use Rattle.flow.specs.Rules.{initial_memory, entry, carried, onward, onward_except};
ghost use Rattle.slots.specs.Layout.{claim_in};
ghost use Rattle.slots.specs.Named.{slot_of};
ghost use Rattle.carry.specs.Carried.{row_in, row_flows, carried_except, arguments_from, class_fields, all_fields, all_statics};

use mask::Mask;
use slots::Slot;

// Whether the masks in 16 words from one place on are in those from another: no bit is in one word and not in the other.
fn row_in(w: &[u64; 9712], from: usize, to: usize) -> bool
    requires { (from + 16 ≤ 9712) × (to + 16 ≤ 9712) }
    ensures value { result ≡ row_in w.now from to }
{
    let mut out = Mask::empty();
    for r in 0..16 {
        let x = Mask { bits: w[from + r] };
        let y = Mask { bits: w[to + r] };
        out = out.join(x.without(y));
    }
    out.is_empty()
}

// A quick test, of a whole row at once: where it passes, all registers at an address flow to another. Where it fails, those that are
// asked may still do.
fn row_flows(w: &[u64; 9712], m: usize, pc: usize, to: usize) -> bool
    ensures value { result ≡ row_flows w.now m pc to }
{
    m < 16 && pc < 32 && to < 32 && row_in(w, slots::row(m, pc), slots::row(m, to))
}

// Whether one slot's mask is in another's. It is inlined, so that no slot is stored.
#[inline(always)]
fn flows(w: &[u64; 9712], from: Slot, into: Slot) -> bool
    ensures value { result ≡ kept (claim_in w.now) (slot_of from ⊆ slot_of into) }
{
    slots::mask(w, from).subset(slots::mask(w, into))
}

// Whether a slot's mask has zero's bit.
fn has_zero(w: &[u64; 9712], slot: Slot) -> bool
    ensures value { result ≡ kept (claim_in w.now) (zero_bit ∈ slot_of slot) }
{
    slots::mask(w, slot).has(62)
}

// Whether all registers at one address of a method, but register a, flow to another address.
fn carried_except(t: &[u64; 768], w: &[u64; 9712], m: usize, pc: usize, a: usize, to: usize) -> bool
    ensures value { result ≡ kept (claim_in w.now) (carried_except (program_in t.now) m pc a to) }
{
    let n = program::registers(t, m);
    (0..n).all(|r| r == a || flows(w, Slot::Register(m, pc, r), Slot::Register(m, to, r)))
}

// The same, answered at once where the quick test passes.
fn others_carried(t: &[u64; 768], w: &[u64; 9712], m: usize, pc: usize, a: usize, to: usize) -> bool
    ensures value { result ≡ kept (claim_in w.now) (carried_except (program_in t.now) m pc a to) }
{
    row_flows(w, m, pc, to) || carried_except(t, w, m, pc, a, to)
}

// Whether all registers flow to an address. No method has a register 256.
pub fn carried(t: &[u64; 768], w: &[u64; 9712], m: usize, pc: usize, to: usize) -> bool
    ensures value { result ≡ kept (claim_in w.now) (carried (program_in t.now) m pc to) }
{
    row_flows(w, m, pc, to) || carried_except(t, w, m, pc, 256, to)
}

// Whether registers and result flow to an address.
pub fn onward(t: &[u64; 768], w: &[u64; 9712], m: usize, pc: usize, to: usize) -> bool
    ensures value { result ≡ kept (claim_in w.now) (onward (program_in t.now) m pc to) }
{
    carried(t, w, m, pc, to) && flows(w, Slot::Result(m, pc), Slot::Result(m, to))
}

// The same but for register a.
pub fn onward_except(
    t: &[u64; 768],
    w: &[u64; 9712],
    m: usize,
    pc: usize,
    a: usize,
    to: usize,
) -> bool
    ensures value { result ≡ kept (claim_in w.now) (onward_except (program_in t.now) m pc a to) }
{
    others_carried(t, w, m, pc, a, to) && flows(w, Slot::Result(m, pc), Slot::Result(m, to))
}

// Whether the arguments of a call from number `from` on, of `count` in registers from `first` on, flow into the callee's parameters.
pub fn arguments(
    t: &[u64; 768],
    w: &[u64; 9712],
    m: usize,
    pc: usize,
    q: usize,
    from: u8,
    count: u8,
    first: u8,
) -> bool
    ensures value { result ≡ kept (claim_in w.now) (arguments_from (program_in t.now) m pc q from count first) }
{
    let base = locals(t, q);
    (from..count).all(|i| {
        let given = Slot::Register(m, pc, first as usize + i as usize);
        flows(w, given, Slot::Register(q, 0, base + i as usize))
    })
}

// How many registers of a method hold no argument.
pub fn locals(t: &[u64; 768], m: usize) -> usize
    ensures value { result ≡ registers (program_in t.now) m - arguments (program_in t.now) m }
{
    program::registers(t, m).saturating_sub(program::arguments(t, m))
}

// Rule 1 of a method.
pub fn entry(t: &[u64; 768], w: &[u64; 9712], m: usize) -> bool
    ensures value { result ≡ kept (claim_in w.now) (entry (program_in t.now) m) }
{
    (0..locals(t, m)).all(|r| has_zero(w, Slot::Register(m, 0, r)))
        && has_zero(w, Slot::Result(m, 0))
}

// Whether the masks of a class's fields have zero's bit.
fn class_fields(t: &[u64; 768], w: &[u64; 9712], k: usize) -> bool
    ensures value { result ≡ kept (claim_in w.now) (class_fields (program_in t.now) k) }
{
    let n = program::field_count(t);
    (0..n).all(|x| !search::has_field(t, k, x) || has_zero(w, Slot::Field(k, x)))
}

fn all_fields(t: &[u64; 768], w: &[u64; 9712]) -> bool
    ensures value { result ≡ kept (claim_in w.now) (all_fields (program_in t.now)) }
{
    (0..program::class_count(t)).all(|k| class_fields(t, w, k))
}

fn all_statics(t: &[u64; 768], w: &[u64; 9712]) -> bool
    ensures value { result ≡ kept (claim_in w.now) (all_statics (program_in t.now)) }
{
    (0..program::static_count(t)).all(|x| has_zero(w, Slot::Static(x)))
}

// Rule 0.
pub fn initial_memory(t: &[u64; 768], w: &[u64; 9712]) -> bool
    ensures value { result ≡ kept (claim_in w.now) (initial_memory (program_in t.now)) }
{
    all_fields(t, w) && all_statics(t, w)
}
