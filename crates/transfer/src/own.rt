// Exceptions that an instruction raises itself (rules 9 and 10): null used, division by zero, a failed cast.
ghost use Rattle.flow.specs.Rules.{null_in, zero_divisor, failed_cast};
ghost use Rattle.slots.specs.Layout.{claim_in};
ghost use Rattle.raise.specs.Raises.{Leaving};
ghost use Rattle.transfer.specs.Transfer.{raised_rules};
ghost use Rattle.transfer.specs.Site.{program_of};

use crate::site::Site;
use instruction::Operation;
use raise::exceptions;
use slots::Slot;

impl Site<'_> {
    pub fn null_used(&self, w: &mut [u64; 9712], object: u8) -> u64
        ensures raised { let p = program_of self.now in
            let m = self.now.method in
            let pc = self.now.address in
            let c = claim_in w.old in
            let d = claim_in w.new in
            Leaving p m (raised_rules p m pc (null_in p m pc object)) c d }
    {
        let (m, pc) = (self.method, self.address);
        let mask = slots::mask(w, Slot::Register(m, pc, object as usize));
        exceptions::own_by(self.sets, w, m, pc, mask.has(62), 2)
    }

    pub fn divided_by_zero(&self, w: &mut [u64; 9712], operation: Operation, divisor: u8) -> u64
        ensures raised { let p = program_of self.now in
            let m = self.now.method in
            let pc = self.now.address in
            let c = claim_in w.old in
            let d = claim_in w.new in
            Leaving p m (raised_rules p m pc (zero_divisor p m pc operation divisor)) c d }
    {
        let (m, pc) = (self.method, self.address);
        let mask = slots::mask(w, Slot::Register(m, pc, divisor as usize));
        let by_zero = arithmetic::divides(operation) && mask.has(62);
        exceptions::own_by(self.sets, w, m, pc, by_zero, 3)
    }

    pub fn cast_failed(&self, w: &mut [u64; 9712], register: u8, class: u8) -> u64
        ensures raised { let p = program_of self.now in
            let m = self.now.method in
            let pc = self.now.address in
            let c = claim_in w.old in
            let d = claim_in w.new in
            Leaving p m (raised_rules p m pc (failed_cast p m pc register class)) c d }
    {
        let (m, pc) = (self.method, self.address);
        let mask = slots::mask(w, Slot::Register(m, pc, register as usize));
        let fails = self.sets.fails_cast(mask, class as usize);
        exceptions::own_by(self.sets, w, m, pc, fails, 4)
    }
}
