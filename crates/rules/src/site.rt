// The address of a method at which rules are tested, and what the claim says there.
ghost use Rattle.std.specs.Prelude.{◌≡◌, ◌<◌, suc};
ghost use Rattle.flow.specs.Claim.{register_at, result_at};
ghost use Rattle.flow.specs.Flows.{kept};
ghost use Rattle.flow.specs.Rules.{carried, onward};

use mask::Mask;
use sets::Sets;
use slots::Slot;

// An address of a method, in a program by the sets of its classes, and in a claim.
#[derive(Clone, Copy)]
pub struct Site<'a> {
    pub sets: &'a Sets<'a>,
    pub claim: &'a [u64; 9712],
    pub method: usize,
    pub address: usize,
    pub ghost inside: { address < 32 },
}

impl Site<'_> {
    ghost use Rattle.rules.specs.Site.{program_of, claim_of};

    // The mask of a register at the address.
    pub fn register(&self, r: u8) -> Mask
        ensures value { result ≡ claim_of self.now (register_at self.now.method self.now.address r) }
    {
        slots::mask(
            self.claim,
            Slot::Register(self.method, self.address, r as usize),
        )
    }

    // The mask of a register at the next address.
    pub fn next_register(&self, r: u8) -> Mask
        ensures value { result ≡ claim_of self.now (register_at self.now.method (suc self.now.address) r) }
    {
        slots::mask(
            self.claim,
            Slot::Register(self.method, self.address + 1, r as usize),
        )
    }

    // The mask of the result at the next address.
    pub fn next_result(&self) -> Mask
        ensures value { result ≡ claim_of self.now (result_at self.now.method (suc self.now.address)) }
    {
        slots::mask(self.claim, Slot::Result(self.method, self.address + 1))
    }

    // Whether registers and result flow to an address.
    pub fn flows_to(&self, to: usize) -> bool
        ensures value { result ≡ kept (claim_of self.now) (onward (program_of self.now) self.now.method self.now.address to) }
    {
        carry::onward(self.sets.tables, self.claim, self.method, self.address, to)
    }

    // Whether registers and result flow to the next address.
    pub fn flows_on(&self) -> bool
        ensures value { let pc = self.now.address in
            result ≡ kept (claim_of self.now) (onward (program_of self.now) self.now.method pc (suc pc)) }
    {
        self.flows_to(self.address + 1)
    }

    // Whether registers flow to an address.
    pub fn carries_to(&self, to: usize) -> bool
        ensures value { result ≡ kept (claim_of self.now) (carried (program_of self.now) self.now.method self.now.address to) }
    {
        carry::carried(self.sets.tables, self.claim, self.method, self.address, to)
    }

    // Whether registers flow to the next address.
    pub fn carries_on(&self) -> bool
        ensures value { let pc = self.now.address in
            result ≡ kept (claim_of self.now) (carried (program_of self.now) self.now.method pc (suc pc)) }
    {
        self.carries_to(self.address + 1)
    }
}
