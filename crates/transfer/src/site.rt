// The address of a method whose rules are met, and what goes on from it to the next.
ghost use Rattle.std.specs.Prelude.{◌<◌, suc};
ghost use Rattle.flow.specs.Rules.{carried, onward};
ghost use Rattle.slots.specs.Layout.{claim_in};
ghost use Rattle.raise.specs.Raises.{Flowing};

use raise::rows;
use sets::Sets;

// An address of a method, in a program by the sets of its classes.
#[derive(Clone, Copy)]
pub struct Site<'a> {
    pub sets: &'a Sets<'a>,
    pub method: usize,
    pub address: usize,
    pub ghost inside: { address < 32 },
}

impl Site<'_> {
    ghost use Rattle.transfer.specs.Site.{program_of};

    // Registers go on to the next address.
    pub fn carry(&self, w: &mut [u64; 9712]) -> u64
        ensures raised { let p = program_of self.now in
            let m = self.now.method in
            let pc = self.now.address in
            Flowing p m (suc pc) (carried p m pc (suc pc)) (claim_in w.old) (claim_in w.new) }
    {
        let next = self.address + 1;
        rows::carry(self.sets.tables, w, self.method, self.address, next)
    }

    // Registers and result go on to the next address.
    pub fn onward(&self, w: &mut [u64; 9712]) -> u64
        ensures raised { let p = program_of self.now in
            let m = self.now.method in
            let pc = self.now.address in
            Flowing p m (suc pc) (onward p m pc (suc pc)) (claim_in w.old) (claim_in w.new) }
    {
        let next = self.address + 1;
        rows::onward(self.sets.tables, w, self.method, self.address, next)
    }
}
