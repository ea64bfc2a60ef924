// Rules of instructions that write no register: where they go on to, what they store, return and throw.
ghost use Rattle.std.specs.Prelude.{◌≡◌, [], ◌∷◌};
ghost use Rattle.instruction.specs.declared.Instruction.TheVariants.{Iput, Sput, Return, ReturnVoid, Throw};
ghost use Rattle.flow.specs.Rules.{to_next, to_target};
ghost use Rattle.rules.specs.Broken.{broken_in};
ghost use Rattle.rules.specs.Site.{program_of, claim_of, broken_at};

use crate::site::Site;
use slots::Slot;

impl Site<'_> {
    pub fn to_next(&self) -> Option<usize>
        ensures value { result ≡ broken_in (claim_of self.now) (to_next (program_of self.now) self.now.method self.now.address ∷ []) }
    {
        if self.flows_on() { None } else { Some(2) }
    }

    pub fn to_target(&self, target: u32) -> Option<usize>
        ensures value { let p = program_of self.now in
            result ≡ broken_in (claim_of self.now) (to_target p self.now.method self.now.address target ∷ []) }
    {
        if self.flows_to(target as usize) {
            None
        } else {
            Some(3)
        }
    }

    pub fn to_both(&self, target: u32) -> Option<usize>
        ensures value { let p = program_of self.now in
            let m = self.now.method in
            let pc = self.now.address in
            result ≡ broken_in (claim_of self.now) (to_next p m pc ∷ to_target p m pc target ∷ []) }
    {
        if self.flows_on() {
            self.to_target(target)
        } else {
            Some(2)
        }
    }

    pub fn field_written(&self, from: u8, object: u8, field: u8) -> Option<usize>
        ensures value { result ≡ broken_at self.now (Iput from object field) }
    {
        let objects = self.register(object);
        let having = self.sets.with_field(objects, field);
        if !self.flows_on() {
            return Some(2);
        }
        if !classes::into_fields(self.claim, having, field as usize, self.register(from)) {
            return Some(5);
        }
        self.own(objects.has(62), 2)
    }

    pub fn static_written(&self, from: u8, place: u8) -> Option<usize>
        ensures value { result ≡ broken_at self.now (Sput from place) }
    {
        if !self.flows_on() {
            return Some(2);
        }
        if self
            .register(from)
            .subset(slots::mask(self.claim, Slot::Static(place as usize)))
        {
            None
        } else {
            Some(5)
        }
    }

    pub fn returned(&self, from: u8) -> Option<usize>
        ensures value { result ≡ broken_at self.now (Return from) }
    {
        if self
            .register(from)
            .subset(slots::mask(self.claim, Slot::Returned(self.method)))
        {
            None
        } else {
            Some(8)
        }
    }

    pub fn returned_void(&self) -> Option<usize>
        ensures value { result ≡ broken_at self.now ReturnVoid }
    {
        if slots::mask(self.claim, Slot::Returned(self.method)).has(62) {
            None
        } else {
            Some(8)
        }
    }

    pub fn thrown(&self, from: u8) -> Option<usize>
        ensures value { result ≡ broken_at self.now (Throw from) }
    {
        let mask = self.register(from);
        let throwable = mask.common(self.sets.below(1));
        self.raised(sets::add(throwable, 2, mask.has(62)))
    }
}
