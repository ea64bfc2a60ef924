// Rules 9 and 10 of the exceptions that are raised at an address, by the instruction or by a callee: those in a mask.
ghost use Rattle.std.specs.Prelude.{◌≡◌, ◌&&◌, ◌||◌};
ghost use Rattle.mask.specs.Mask.{is_empty, subset};
ghost use Rattle.flow.specs.Claim.{result_at};
ghost use Rattle.flow.specs.Flows.{kept};
ghost use Rattle.flow.specs.Rules.{carried};
ghost use Rattle.rules.specs.Broken.{raised_rule, own_rule};
ghost use Rattle.rules.specs.Site.{program_of, claim_of};

use crate::site::Site;
use mask::Mask;
use slots::Slot;

impl Site<'_> {
    // Whether registers go into an address, and the classes in a mask into its result, if there are any.
    fn goes_into(&self, mask: Mask, to: usize) -> bool
        ensures value { let p = program_of self.now in
            let c = claim_of self.now in
            let m = self.now.method in
            result ≡ is_empty mask || (kept c (carried p m self.now.address to) && subset mask (c (result_at m to))) }
    {
        mask.is_empty()
            || (self.carries_to(to)
                && mask.subset(slots::mask(self.claim, Slot::Result(self.method, to))))
    }

    // The first broken of rules 9 and 10, of the classes in a mask: handler by handler in the order of the text, which is by falling
    // number, each takes those that it catches of the rest.
    pub fn raised(&self, mask: Mask) -> Option<usize>
        ensures value { result ≡ raised_rule (program_of self.now) (claim_of self.now) self.now.method self.now.address mask }
    {
        let t = self.sets.tables;
        let mut rest = mask.common(self.sets.classes());
        for h in (0..program::handler_count(t, self.method)).rev() {
            let taken = self.sets.caught(self.method, self.address, rest, h);
            if !self.goes_into(taken, program::handler_target(t, self.method, h)) {
                return Some(9);
            }
            rest = rest.without(taken);
        }
        if rest.subset(slots::mask(self.claim, Slot::Leaving(self.method))) {
            None
        } else {
            Some(10)
        }
    }

    // The first broken of rules 9 and 10, of a class that an instruction raises itself, where it may.
    pub fn own(&self, may: bool, class: usize) -> Option<usize>
        ensures value { result ≡ own_rule (program_of self.now) (claim_of self.now) self.now.method self.now.address may class }
    {
        if may {
            self.raised(Mask::of(class))
        } else {
            None
        }
    }
}
