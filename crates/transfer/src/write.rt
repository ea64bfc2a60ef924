// Instructions that write a register (rules 2 and 4, and rules 9 and 10 of what they raise): the mask of what is written is made of the
// masks before.
ghost use Rattle.std.specs.Prelude.{suc, ◌<◌};
ghost use Rattle.instruction.specs.declared.Instruction.TheVariants.{Binop, Iget, CheckCast};
ghost use Rattle.program.specs.Program.{registers};
ghost use Rattle.flow.specs.Claim.{register_at, result_at, static_of, number_bit};
ghost use Rattle.flow.specs.Flows.{Flows, ◌∈◌, ◌⊆◌, numeric};
ghost use Rattle.flow.specs.Rules.{numbers_into, rules_of};
ghost use Rattle.slots.specs.Layout.{claim_in};
ghost use Rattle.order.specs.Raised.{all_of};
ghost use Rattle.raise.specs.Raises.{Flowing};
ghost use Rattle.transfer.specs.Transfer.{Gives, Writes};
ghost use Rattle.transfer.specs.Site.{program_of};

use crate::site::Site;
use instruction::Operation;
use mask::Mask;
use raise::masks;
use slots::Slot;

impl Site<'_> {
    // Registers and result go on, and a mask goes into the written register: the register holds it meanwhile, in place of its own.
    fn written(&self, w: &mut [u64; 9712], a: u8, value: Mask) -> u64
        ensures raised { let p = program_of self.now in
            let m = self.now.method in
            let pc = self.now.address in
            let c = claim_in w.old in
            let d = claim_in w.new in
            ((f : Flows) → Gives c f (register_at m (suc pc) a) value → Writes p m pc a f c d) }
    {
        let slot = Slot::Register(self.method, self.address, a as usize);
        let place = slots::place(slot);
        let own = slots::mask(w, slot);
        slots::put(&mut *w, place, value.bits);
        let new = self.onward(&mut *w);
        slots::put(w, place, own.bits);
        new
    }

    pub fn moved(&self, w: &mut [u64; 9712], to: u8, from: u8) -> u64
        ensures raised { let p = program_of self.now in
            let m = self.now.method in
            let pc = self.now.address in
            let c = claim_in w.old in
            let d = claim_in w.new in
            Writes p m pc to (register_at m pc from ⊆ register_at m (suc pc) to) c d }
    {
        let value = slots::mask(w, Slot::Register(self.method, self.address, from as usize));
        self.written(w, to, value)
    }

    pub fn constant(&self, w: &mut [u64; 9712], to: u8, value: i32) -> u64
        ensures raised { let p = program_of self.now in
            let m = self.now.method in
            let pc = self.now.address in
            let c = claim_in w.old in
            let d = claim_in w.new in
            Writes p m pc to (number_bit value ∈ register_at m (suc pc) to) c d }
    {
        self.written(w, to, masks::of_number(value))
    }

    // Of numbers out of two registers. An instruction of one operand has it twice.
    pub fn of_both(&self, w: &mut [u64; 9712], to: u8, left: u8, right: u8) -> u64
        ensures raised { let p = program_of self.now in
            let m = self.now.method in
            let pc = self.now.address in
            let c = claim_in w.old in
            let d = claim_in w.new in
            Writes p m pc to (numeric (register_at m pc left) (numeric (register_at m pc right) (numbers_into p m pc to))) c d }
    {
        let (m, pc) = (self.method, self.address);
        let a = slots::mask(w, Slot::Register(m, pc, left as usize));
        let b = slots::mask(w, Slot::Register(m, pc, right as usize));
        self.written(w, to, masks::of_numbers(a, b))
    }

    pub fn binary(
        &self,
        w: &mut [u64; 9712],
        operation: Operation,
        to: u8,
        left: u8,
        right: u8,
    ) -> u64
        ensures raised { let p = program_of self.now in
            let m = self.now.method in
            let pc = self.now.address in
            let c = claim_in w.old in
            let d = claim_in w.new in
            (to < registers p m → Flowing p m (suc pc) (all_of (rules_of p m pc (Binop operation to left right))) c d) }
    {
        let new = self.of_both(&mut *w, to, left, right);
        new | self.divided_by_zero(w, operation, right)
    }

    pub fn made(&self, w: &mut [u64; 9712], to: u8, class: u8) -> u64
        ensures raised { let p = program_of self.now in
            let m = self.now.method in
            let pc = self.now.address in
            let c = claim_in w.old in
            let d = claim_in w.new in
            (class < 64 → Writes p m pc to (class ∈ register_at m (suc pc) to) c d) }
    {
        self.written(w, to, Mask::of(class as usize))
    }

    pub fn field_read(&self, w: &mut [u64; 9712], to: u8, object: u8, field: u8) -> u64
        ensures raised { let p = program_of self.now in
            let m = self.now.method in
            let pc = self.now.address in
            let c = claim_in w.old in
            let d = claim_in w.new in
            (to < registers p m → Flowing p m (suc pc) (all_of (rules_of p m pc (Iget to object field))) c d) }
    {
        let mask = slots::mask(
            w,
            Slot::Register(self.method, self.address, object as usize),
        );
        let having = self.sets.with_field(mask, field);
        let value = masks::from_fields(w, having, field as usize);
        let new = self.written(&mut *w, to, value);
        new | self.null_used(w, object)
    }

    pub fn static_read(&self, w: &mut [u64; 9712], to: u8, place: u8) -> u64
        ensures raised { let p = program_of self.now in
            let m = self.now.method in
            let pc = self.now.address in
            let c = claim_in w.old in
            let d = claim_in w.new in
            Writes p m pc to (static_of place ⊆ register_at m (suc pc) to) c d }
    {
        let value = slots::mask(w, Slot::Static(place as usize));
        self.written(w, to, value)
    }

    // Of move-result, and of move-exception.
    pub fn result_read(&self, w: &mut [u64; 9712], to: u8) -> u64
        ensures raised { let p = program_of self.now in
            let m = self.now.method in
            let pc = self.now.address in
            let c = claim_in w.old in
            let d = claim_in w.new in
            Writes p m pc to (result_at m pc ⊆ register_at m (suc pc) to) c d }
    {
        let value = slots::mask(w, Slot::Result(self.method, self.address));
        self.written(w, to, value)
    }

    pub fn numbers(&self, w: &mut [u64; 9712], to: u8) -> u64
        ensures raised { let p = program_of self.now in
            let m = self.now.method in
            let pc = self.now.address in
            let c = claim_in w.old in
            let d = claim_in w.new in
            Writes p m pc to (numbers_into p m pc to) c d }
    {
        self.written(w, to, masks::both_numbers())
    }

    pub fn cast(&self, w: &mut [u64; 9712], register: u8, class: u8) -> u64
        ensures raised { let p = program_of self.now in
            let m = self.now.method in
            let pc = self.now.address in
            let c = claim_in w.old in
            let d = claim_in w.new in
            (register < registers p m → Flowing p m (suc pc) (all_of (rules_of p m pc (CheckCast register class))) c d) }
    {
        let mask = slots::mask(
            w,
            Slot::Register(self.method, self.address, register as usize),
        );
        let value = masks::passing_by(self.sets, mask, class as usize);
        let new = self.written(&mut *w, register, value);
        new | self.cast_failed(w, register, class)
    }
}
