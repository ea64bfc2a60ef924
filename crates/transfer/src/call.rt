// Calls (rules 2, 6, 7, 9 and 10).
ghost use Rattle.std.specs.Prelude.{◌≡◌, true, ℕ, suc, ◌<◌};
ghost use Rattle.instruction.specs.declared.Instruction.TheVariants.{InvokeVirtual, InvokeStatic};
ghost use Rattle.mask.specs.Mask.{has};
ghost use Rattle.program.specs.Program.{method_count, arguments};
ghost use Rattle.flow.specs.Flows.{each};
ghost use Rattle.flow.specs.Rules.{rules_of};
ghost use Rattle.slots.specs.Layout.{claim_in};
ghost use Rattle.order.specs.Raised.{all_of};
ghost use Rattle.raise.specs.Raises.{Flowing};
ghost use Rattle.transfer.specs.Transfer.{from_callee, called_by, called_from};
ghost use Rattle.transfer.specs.Site.{program_of};

use crate::site::Site;
use mask::Mask;
use raise::exceptions;
use raise::rows::pass_arguments;
use raise::words::{CALLEES, join, mark};
use slots::Slot;

impl Site<'_> {
    // What comes back from a callee: its returned mask, and the exceptions that leave it.
    fn come_back(&self, w: &mut [u64; 9712], q: usize) -> u64
        ensures raised { let p = program_of self.now in
            let m = self.now.method in
            let pc = self.now.address in
            let c = claim_in w.old in
            let d = claim_in w.new in
            Flowing p m (suc pc) (from_callee p m pc q) c d }
    {
        let next = self.address + 1;
        let value = slots::mask(w, Slot::Returned(q));
        let new = mark(join(&mut *w, Slot::Result(self.method, next), value), next);
        let out = slots::mask(w, Slot::Leaving(q));
        new | exceptions::raised_by(self.sets, w, self.method, self.address, out)
    }

    pub fn by_method(&self, w: &mut [u64; 9712], method: u8, count: u8, register: u8) -> u64
        ensures raised { let p = program_of self.now in
            let m = self.now.method in
            let pc = self.now.address in
            let c = claim_in w.old in
            let d = claim_in w.new in
            (method < method_count p → arguments p method ≡ count
            → Flowing p m (suc pc) (all_of (rules_of p m pc (InvokeStatic method count register))) c d) }
    {
        let (t, m, pc) = (self.sets.tables, self.method, self.address);
        let q = method as usize;
        let on = self.carry(&mut *w);
        let given = pass_arguments(t, &mut *w, m, pc, q, 0, count, register);
        on | given | self.come_back(w, q)
    }

    // A call of method q by the classes in a mask, if there are any.
    fn take_callee(
        &self,
        w: &mut [u64; 9712],
        receivers: Mask,
        count: u8,
        register: u8,
        q: usize,
    ) -> u64
        ensures raised { let p = program_of self.now in
            let m = self.now.method in
            let pc = self.now.address in
            let c = claim_in w.old in
            let d = claim_in w.new in
            (0 < count → ((k : ℕ) → has receivers k ≡ true → (q < method_count p) × (arguments p q ≡ count))
            → Flowing p m (suc pc) (called_by p m pc (has receivers) count register q) c d) }
    {
        if receivers.is_empty() {
            return 0;
        }
        let (t, m, pc) = (self.sets.tables, self.method, self.address);
        let entered = join(
            &mut *w,
            Slot::Register(q, 0, carry::locals(t, q)),
            receivers,
        );
        let given = pass_arguments(t, &mut *w, m, pc, q, 1, count, register);
        let back = self.come_back(w, q);
        if q < 16 {
            return mark(entered, CALLEES + q) | given | back;
        }
        back
    }

    // All callees of a virtual call by the classes in a mask.
    fn take_callees(
        &self,
        w: &mut [u64; 9712],
        mask: Mask,
        name: u8,
        count: u8,
        register: u8,
    ) -> u64
        ensures raised { let p = program_of self.now in
            let m = self.now.method in
            let pc = self.now.address in
            let c = claim_in w.old in
            let d = claim_in w.new in
            (0 < count → Flowing p m (suc pc) (each (method_count p) (called_from p m pc mask name count register)) c d) }
    {
        let mut new: u64 = 0;
        for q in 0..program::method_count(self.sets.tables) {
            let receivers = self.sets.leading(mask, name as usize, count as usize, q);
            new |= self.take_callee(&mut *w, receivers, count, register, q);
        }
        new
    }

    pub fn by_receiver(&self, w: &mut [u64; 9712], name: u8, count: u8, register: u8) -> u64
        ensures raised { let p = program_of self.now in
            let m = self.now.method in
            let pc = self.now.address in
            let c = claim_in w.old in
            let d = claim_in w.new in
            (0 < count → Flowing p m (suc pc) (all_of (rules_of p m pc (InvokeVirtual name count register))) c d) }
    {
        let new = self.carry(&mut *w);
        let mask = slots::mask(
            w,
            Slot::Register(self.method, self.address, register as usize),
        );
        let called = self.take_callees(&mut *w, mask, name, count, register);
        new | called | self.null_used(w, register)
    }
}
