// The least claim of a program, in words: a worklist of addresses, each visited by its transfer function, until no rule is broken. Marks
// guide the order of the work; no promise says anything of them. That every rule holds at the end is tested by crate rules.
#![tactic(auto)]

mod waits; // waits.rt: the addresses that wait, and the readers of slots

ghost use Rattle.std.specs.Prelude.{◌≡◌, ◌<◌};
ghost use Rattle.program.specs.Program.{method_count, code_length};
ghost use Rattle.program.specs.Tables.{program_in};
ghost use Rattle.reader.specs.Formed.{Formed};
ghost use Rattle.slots.specs.Layout.{claim_in, no_masks};
ghost use Rattle.order.specs.Order.{Least};
ghost use Rattle.fixpoint.specs.Risen.{Risen, Upward};

use crate::waits::Waits;
use sets::Sets;

// Visits an address, if there is one: its rules are met. Answers marks of what got new bits.
fn visit<'a>(sets: &'a Sets<'a>, w: &mut [u64; 9712], m: usize, pc: usize) -> u64
    ensures upward { let p = program_in sets.now.tables.now in
        let c = claim_in w.old in
        let d = claim_in w.new in
        (Formed p → Upward p c d) }
{
    if m < program::method_count(sets.tables) && pc < program::code_length(sets.tables, m) {
        return transfer::raise_by(sets, w, m, pc);
    }
    0
}

// Visits the lowest address of method m that waits. Answers the method to look at next, if something waits: a method is emptied before
// the next one.
fn turn<'a>(sets: &'a Sets<'a>, w: &mut [u64; 9712], waits: &mut Waits, m: usize) -> Option<usize>
    ensures upward { let p = program_in sets.now.tables.now in
        let c = claim_in w.old in
        let d = claim_in w.new in
        (Formed p → Upward p c d) }
{
    let Some(pc) = waits.take(m) else {
        return waits.next(m);
    };
    let news = visit(sets, w, m, pc);
    waits.add_dependents(sets.tables, m, pc, news);
    Some(m)
}

// Turns, until nothing waits or so many have been made.
fn work<'a>(sets: &'a Sets<'a>, w: &mut [u64; 9712], waits: &mut Waits, turns: usize)
    ensures upward { let p = program_in sets.now.tables.now in
        let c = claim_in w.old in
        let d = claim_in w.new in
        (Formed p → Upward p c d) }
{
    let mut m: usize = 0;
    for _turn in 0..turns {
        let Some(next) = turn(sets, &mut *w, &mut *waits, m) else {
            return;
        };
        m = next;
    }
}

// Visits an address whose rule is broken, then all that waits, which is everything at first.
fn go_on<'a>(sets: &'a Sets<'a>, w: &mut [u64; 9712], waits: &mut Waits, m: usize, pc: usize)
    ensures risen { let p = program_in sets.now.tables.now in
        let c = claim_in w.old in
        let d = claim_in w.new in
        (Formed p → m < method_count p → pc < code_length p m → Risen p m pc c d) }
{
    transfer::raise_by(sets, &mut *w, m, pc);
    waits.add_all(sets.tables);
    work(sets, w, waits, 1000000)
}

// Raises the masks, from none, until no rule is broken. Each round adds a bit, and there are 621,568.
fn fill_by<'a>(sets: &'a Sets<'a>, w: &mut [u64; 9712], waits: &mut Waits)
    ensures least { let p = program_in sets.now.tables.now in
        let d = claim_in w.new in
        (Formed p → w.old ≡ no_masks → Least p d) }
{
    for _round in 0..621569usize {
        let Some(broken) = rules::first_broken(sets.tables, w) else {
            return;
        };
        go_on(sets, &mut *w, &mut *waits, broken.method, broken.address);
    }
}

// The least claim of the program in tables, from words with no bit.
pub fn fill(t: &[u64; 768], w: &mut [u64; 9712])
    ensures least { let p = program_in t.now in
        let d = claim_in w.new in
        (Formed p → w.old ≡ no_masks → Least p d) }
{
    let mut words = [0; 80];
    let sets = Sets::of(t, &mut words);
    let mut waits = Waits::none();
    waits.list_readers(t);
    fill_by(&sets, w, &mut waits)
}
