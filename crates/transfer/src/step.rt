// Instructions that write no register: where they go on to, what they store, return and throw.
ghost use Rattle.std.specs.Prelude.{suc, ◌<◌};
ghost use Rattle.instruction.specs.declared.Instruction.TheVariants.{Iput, Sput, Return, ReturnVoid, Throw};
ghost use Rattle.program.specs.Program.{code_length};
ghost use Rattle.flow.specs.Rules.{onward, rules_of};
ghost use Rattle.flow.specs.Flows.{◌&◌};
ghost use Rattle.slots.specs.Layout.{claim_in};
ghost use Rattle.order.specs.Raised.{all_of, nothing};
ghost use Rattle.raise.specs.Raises.{Flowing, Leaving};
ghost use Rattle.transfer.specs.Site.{program_of};

use crate::site::Site;
use mask::Mask;
use raise::words::{OUT, STORED, join, mark};
use raise::{exceptions, masks, rows};
use slots::Slot;

impl Site<'_> {
    pub fn to_next(&self, w: &mut [u64; 9712]) -> u64
        ensures raised { let p = program_of self.now in
            let m = self.now.method in
            let pc = self.now.address in
            let c = claim_in w.old in
            let d = claim_in w.new in
            Flowing p m (suc pc) (onward p m pc (suc pc) & nothing) c d }
    {
        self.onward(w)
    }

    pub fn to_target(&self, w: &mut [u64; 9712], target: u32) -> u64
        ensures raised { let p = program_of self.now in
            let m = self.now.method in
            let pc = self.now.address in
            let c = claim_in w.old in
            let d = claim_in w.new in
            Flowing p m target (onward p m pc target & nothing) c d }
    {
        let to = target as usize;
        rows::onward(self.sets.tables, w, self.method, self.address, to)
    }

    pub fn to_both(&self, w: &mut [u64; 9712], target: u32) -> u64
        ensures raised { let p = program_of self.now in
            let m = self.now.method in
            let pc = self.now.address in
            let c = claim_in w.old in
            let d = claim_in w.new in
            (target < code_length p m → Flowing p m (suc pc) (onward p m pc (suc pc) & onward p m pc target & nothing) c d) }
    {
        let new = self.onward(&mut *w);
        new | self.to_target(w, target)
    }

    pub fn field_written(&self, w: &mut [u64; 9712], from: u8, object: u8, field: u8) -> u64
        ensures raised { let p = program_of self.now in
            let m = self.now.method in
            let pc = self.now.address in
            let c = claim_in w.old in
            let d = claim_in w.new in
            Flowing p m (suc pc) (all_of (rules_of p m pc (Iput from object field))) c d }
    {
        let (m, pc) = (self.method, self.address);
        let new = self.onward(&mut *w);
        let mask = slots::mask(w, Slot::Register(m, pc, object as usize));
        let value = slots::mask(w, Slot::Register(m, pc, from as usize));
        let having = self.sets.with_field(mask, field);
        let stored = masks::into_fields(&mut *w, having, field as usize, value);
        new | mark(stored, STORED) | self.null_used(w, object)
    }

    pub fn static_written(&self, w: &mut [u64; 9712], from: u8, place: u8) -> u64
        ensures raised { let p = program_of self.now in
            let m = self.now.method in
            let pc = self.now.address in
            let c = claim_in w.old in
            let d = claim_in w.new in
            (place < p.statics → Flowing p m (suc pc) (all_of (rules_of p m pc (Sput from place))) c d) }
    {
        let new = self.onward(&mut *w);
        let value = slots::mask(w, Slot::Register(self.method, self.address, from as usize));
        new | mark(join(w, Slot::Static(place as usize), value), STORED)
    }

    pub fn returned(&self, w: &mut [u64; 9712], from: u8) -> u64
        ensures raised { let p = program_of self.now in
            let m = self.now.method in
            let pc = self.now.address in
            let c = claim_in w.old in
            let d = claim_in w.new in
            Leaving p m (all_of (rules_of p m pc (Return from))) c d }
    {
        let value = slots::mask(w, Slot::Register(self.method, self.address, from as usize));
        mark(join(w, Slot::Returned(self.method), value), OUT)
    }

    pub fn returned_void(&self, w: &mut [u64; 9712]) -> u64
        ensures raised { let p = program_of self.now in
            let m = self.now.method in
            let pc = self.now.address in
            let c = claim_in w.old in
            let d = claim_in w.new in
            Leaving p m (all_of (rules_of p m pc ReturnVoid)) c d }
    {
        mark(join(w, Slot::Returned(self.method), Mask::of(62)), OUT)
    }

    pub fn thrown(&self, w: &mut [u64; 9712], from: u8) -> u64
        ensures raised { let p = program_of self.now in
            let m = self.now.method in
            let pc = self.now.address in
            let c = claim_in w.old in
            let d = claim_in w.new in
            Leaving p m (all_of (rules_of p m pc (Throw from))) c d }
    {
        let (m, pc) = (self.method, self.address);
        let mask = slots::mask(w, Slot::Register(m, pc, from as usize));
        let throwable = mask.common(self.sets.below(1));
        let new = exceptions::raised_by(self.sets, &mut *w, m, pc, throwable);
        new | self.null_used(w, from)
    }
}
