// The call list, written as bytes to the front of lent memory. Past the memory's end nothing is written.
#![tactic(auto)]

ghost use Rattle.std.specs.Prelude.{◌≡◌, true, ℕ, ◌+◌, ◌≤◌, ◌<◌, length};
ghost use Rattle.mask.specs.Mask.{has};
ghost use Rattle.program.specs.Tables.{program_in};
ghost use Rattle.flow.specs.Rules.{rules_at};
ghost use Rattle.flow.specs.Calls.{called_by, call_list};
ghost use Rattle.slots.specs.Layout.{claim_in};
ghost use Rattle.sets.specs.Sets.{leads_to};
ghost use Rattle.calls.specs.Bytes.{put_calls};
ghost use Rattle.calls.specs.Inside.{call_if, address_calls, method_calls};
ghost use Rattle.calls.specs.Added.{Adds};

use instruction::Instruction;
use mask::Mask;
use sets::Sets;
use slots::Slot;

// Whether a class in the mask leads to method q, called by this name and argument count.
fn leads(s: &Sets, mask: Mask, name: u8, count: u8, q: usize) -> bool
    ensures value { result ≡ leads_to (program_in s.now.tables.now) mask name count q }
{
    !s.leading(mask, name as usize, count as usize, q).is_empty()
}

// The callees of a virtual call, as the bits of their numbers.
fn led_to(s: &Sets, mask: Mask, name: u8, count: u8) -> Mask
    ensures callees { (q : ℕ) → has result q ≡ leads_to (program_in s.now.tables.now) mask name count q }
{
    let mut set = Mask::empty();
    for q in 0..program::method_count(s.tables) {
        set = sets::add(set, q, leads(s, mask, name, count, q));
    }
    set
}

// The callees of the instruction at an address, as the bits of their numbers.
fn callees_at(s: &Sets, w: &[u64; 9712], m: usize, pc: usize) -> Mask
    ensures callees { let p = program_in s.now.tables.now in
        ((q : ℕ) → q < 64 → has result q ≡ called_by (claim_in w.now) (rules_at p m pc) q) }
{
    match program::instruction_at(s.tables, m, pc) {
        Instruction::InvokeVirtual { name, count, first } => {
            let mask = slots::mask(w, Slot::Register(m, pc, first as usize));
            led_to(s, mask, name, count)
        }
        Instruction::InvokeStatic { method, .. } => Mask::of(method as usize),
        _ => Mask::empty(),
    }
}

// The calls so far, at the front of lent memory, and how many there are.
#[derive(Drop)]
struct CallList<'a> {
    memory: &'a mut [u8],
    count: usize,
}

impl CallList<'_> {
    // Writes one call more.
    fn push(&mut self, m: u8, pc: u8, q: u8)
        requires { self.old.count < 8192 }
        ensures added { Adds self.old (call_if true m pc q) self.new }
    {
        let at = 3 * self.count;
        slots::put(&mut *self.memory, at, m);
        slots::put(&mut *self.memory, at + 1, pc);
        slots::put(&mut *self.memory, at + 2, q);
        self.count += 1;
    }
}

// Writes the call to method q if it is among the callees.
fn put_callee(list: &mut CallList<'_>, callees: Mask, m: usize, pc: usize, q: usize)
    requires { (m < 16) × (pc < 32) × (q < 16) × (list.old.count < 8192) }
    ensures added { Adds list.old (call_if (has callees q) m pc q) list.new }
{
    if callees.has(q) {
        list.push(m as u8, pc as u8, q as u8);
    }
}

// Writes the calls at an address.
fn put_address(list: &mut CallList<'_>, s: &Sets, w: &[u64; 9712], m: usize, pc: usize)
    requires { (m < 16) × (pc < 32) × (list.old.count ≤ 8176) }
    ensures added { let p = program_in s.now.tables.now in
        Adds list.old (address_calls p (claim_in w.now) m pc) list.new }
{
    let callees = callees_at(s, w, m, pc);
    for q in 0..program::method_count(s.tables) {
        put_callee(list, callees, m, pc, q);
    }
}

// Writes the calls of a method.
fn put_method(list: &mut CallList<'_>, s: &Sets, w: &[u64; 9712], m: usize)
    requires { list.old.count ≤ 7680 }
    ensures added { let p = program_in s.now.tables.now in
        Adds list.old (method_calls p (claim_in w.now) m) list.new }
{
    for pc in 0..program::code_length(s.tables, m) {
        put_address(list, s, w, m, pc);
    }
}

// Writes the call list to the front of memory and answers how many calls it has.
pub fn write_calls(t: &[u64; 768], w: &[u64; 9712], memory: &mut [u8]) -> usize
    ensures count { result ≡ length (call_list (program_in t.now) (claim_in w.now)) }
    ensures memory { memory.new ≡ put_calls (call_list (program_in t.now) (claim_in w.now)) 0 memory.old }
{
    let mut words = [0; 80];
    let s = Sets::of(t, &mut words);
    let mut list = CallList { memory, count: 0 };
    for m in 0..program::method_count(t) {
        put_method(&mut list, &s, w, m);
    }
    list.count
}
