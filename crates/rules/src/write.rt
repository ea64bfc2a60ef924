// Rules of instructions that write a register (2 and 4, and 9 and 10 of what they raise).
ghost use Rattle.std.specs.Prelude.{◌≡◌, not, ◌&&◌, ◌||◌};
ghost use Rattle.instruction.specs.declared.Instruction.TheVariants.{Move, Const, Binop, NewInstance, Iget, Sget, MoveResult};
ghost use Rattle.instruction.specs.declared.Instruction.TheVariants.{CheckCast};
ghost use Rattle.mask.specs.Mask.{has, has_number};
ghost use Rattle.flow.specs.Claim.{register_at, number_bit};
ghost use Rattle.flow.specs.Flows.{numeric, kept};
ghost use Rattle.flow.specs.Rules.{writes, numbers_into};
ghost use Rattle.rules.specs.Broken.{written, broken_in};
ghost use Rattle.rules.specs.Site.{program_of, claim_of, broken_at};

use crate::site::Site;
use instruction::Operation;
use mask::Mask;
use slots::Slot;

// The bit of a number.
fn bit_of(value: i32) -> usize
    ensures value { result ≡ number_bit value }
{
    if value == 0 { 62 } else { 63 }
}

// Whether a mask has both numbers' bits.
fn both_numbers(mask: Mask) -> bool
    ensures value { result ≡ has mask 62 && has mask 63 }
{
    mask.has(62) && mask.has(63)
}

// Both numbers' bits, if both masks have a number's.
fn of_numbers(left: Mask, right: Mask, into: Mask) -> bool
    ensures value { result ≡ not (has_number left) || (not (has_number right) || (has into 62 && has into 63)) }
{
    !left.has_number() || !right.has_number() || both_numbers(into)
}

// What passes a cast of a mask to a class, but for its classes: zero.
fn zero_passes(mask: Mask, into: Mask) -> bool
    ensures value { result ≡ not (has mask 62) || has into 62 }
{
    !mask.has(62) || into.has(62)
}

impl Site<'_> {
    // Rules 2 and 4, where rule 4's test and the later rules came out so.
    fn written(&self, to: u8, ok: bool, later: Option<usize>) -> Option<usize>
        ensures value { result ≡ written (program_of self.now) (claim_of self.now) self.now.method self.now.address to ok later }
    {
        let t = self.sets.tables;
        let next = self.address + 1;
        if !carry::onward_except(t, self.claim, self.method, self.address, to as usize, next) {
            return Some(2);
        }
        if ok { later } else { Some(4) }
    }

    pub fn moved(&self, to: u8, from: u8) -> Option<usize>
        ensures value { result ≡ broken_at self.now (Move to from) }
    {
        let ok = self.register(from).subset(self.next_register(to));
        self.written(to, ok, None)
    }

    pub fn constant(&self, to: u8, value: i32) -> Option<usize>
        ensures value { result ≡ broken_at self.now (Const to value) }
    {
        let ok = self.next_register(to).has(bit_of(value));
        self.written(to, ok, None)
    }

    // Rules 2 and 4 of numbers out of two registers, where the later rules came out so.
    fn of_both(&self, to: u8, left: u8, right: u8, later: Option<usize>) -> Option<usize>
        ensures value { let p = program_of self.now in
            let c = claim_of self.now in
            let m = self.now.method in
            let pc = self.now.address in
            result ≡ written p c m pc to
            (kept c (numeric (register_at m pc left) (numeric (register_at m pc right) (numbers_into p m pc to)))) later }
    {
        let ok = of_numbers(
            self.register(left),
            self.register(right),
            self.next_register(to),
        );
        self.written(to, ok, later)
    }

    pub fn binary(&self, operation: Operation, to: u8, left: u8, right: u8) -> Option<usize>
        ensures value { result ≡ broken_at self.now (Binop operation to left right) }
    {
        let by_zero = arithmetic::divides(operation) && self.register(right).has(62);
        self.of_both(to, left, right, self.own(by_zero, 3))
    }

    // An instruction of one operand has it twice.
    pub fn unary(&self, to: u8, from: u8) -> Option<usize>
        ensures value { let p = program_of self.now in
            let m = self.now.method in
            let pc = self.now.address in
            result ≡ broken_in (claim_of self.now) (writes p m pc to (numeric (register_at m pc from) (numbers_into p m pc to))) }
    {
        self.of_both(to, from, from, None)
    }

    pub fn made(&self, to: u8, class: u8) -> Option<usize>
        ensures value { result ≡ broken_at self.now (NewInstance to class) }
    {
        let ok = self.next_register(to).has(class as usize);
        self.written(to, ok, None)
    }

    pub fn field_read(&self, to: u8, object: u8, field: u8) -> Option<usize>
        ensures value { result ≡ broken_at self.now (Iget to object field) }
    {
        let objects = self.register(object);
        let having = self.sets.with_field(objects, field);
        let read = classes::from_fields(self.claim, having, field as usize, self.next_register(to));
        self.written(to, read, self.own(objects.has(62), 2))
    }

    pub fn static_read(&self, to: u8, place: u8) -> Option<usize>
        ensures value { result ≡ broken_at self.now (Sget to place) }
    {
        let value = slots::mask(self.claim, Slot::Static(place as usize));
        self.written(to, value.subset(self.next_register(to)), None)
    }

    // Of move-result, and of move-exception.
    pub fn result_read(&self, to: u8) -> Option<usize>
        ensures value { result ≡ broken_at self.now (MoveResult to) }
    {
        let value = slots::mask(self.claim, Slot::Result(self.method, self.address));
        self.written(to, value.subset(self.next_register(to)), None)
    }

    pub fn numbers(&self, to: u8) -> Option<usize>
        ensures value { let p = program_of self.now in
            let m = self.now.method in
            let pc = self.now.address in
            result ≡ broken_in (claim_of self.now) (writes p m pc to (numbers_into p m pc to)) }
    {
        self.written(to, both_numbers(self.next_register(to)), None)
    }

    pub fn cast(&self, register: u8, class: u8) -> Option<usize>
        ensures value { result ≡ broken_at self.now (CheckCast register class) }
    {
        let mask = self.register(register);
        let into = self.next_register(register);
        let passing = mask.common(self.sets.below(class as usize));
        let ok = zero_passes(mask, into) && passing.subset(into);
        let fails = self.sets.fails_cast(mask, class as usize);
        self.written(register, ok, self.own(fails, 4))
    }
}
