// Rules of calls (2, 6, 7, 9 and 10).
ghost use Rattle.std.specs.Prelude.{◌≡◌, ◌&&◌, ◌||◌, ℕ};
ghost use Rattle.instruction.specs.declared.Instruction.TheVariants.{InvokeVirtual, InvokeStatic};
ghost use Rattle.mask.specs.Mask.{has, every};
ghost use Rattle.program.specs.Program.{method_count};
ghost use Rattle.flow.specs.Flows.{some};
ghost use Rattle.rules.specs.Broken.{callee_given, callee_returned, leaves_callee};
ghost use Rattle.rules.specs.Site.{program_of, claim_of, broken_at};

use crate::site::Site;
use mask::Mask;
use slots::Slot;

// A virtual call: the receiver's mask, a method's name and argument count, and the first register.
#[derive(Clone, Copy)]
pub struct Call {
    pub mask: Mask,
    pub name: u8,
    pub count: u8,
    pub register: u8,
}

// What has come of the callees so far: whether rules 6 and 7 hold, and the classes that leave them.
#[derive(Clone, Copy)]
pub struct Callees {
    pub given: bool,
    pub returned: bool,
    pub raised: Mask,
}

impl Site<'_> {
    // The same with method q, if a class in the receiver's mask leads to it.
    fn take_callee(&self, call: Call, prior: Callees, q: usize) -> Callees
        ensures given { let p = program_of self.now in
            let c = claim_of self.now in
            let given = callee_given p c self.now.method self.now.address call.mask call.name call.count call.register q in
            result.given ≡ prior.given && given }
        ensures returned { let p = program_of self.now in
            let c = claim_of self.now in
            let returned = callee_returned p c self.now.method self.now.address call.mask call.name call.count q in
            result.returned ≡ prior.returned && returned }
        ensures raised { let p = program_of self.now in
            let c = claim_of self.now in
            ((k : ℕ) → has result.raised k ≡ has prior.raised k || leaves_callee p c call.mask call.name call.count k q) }
    {
        let t = self.sets.tables;
        let w = self.claim;
        let receivers = self
            .sets
            .leading(call.mask, call.name as usize, call.count as usize, q);
        if receivers.is_empty() {
            return prior;
        }
        let parameter = slots::mask(w, Slot::Register(q, 0, carry::locals(t, q)));
        let arguments = carry::arguments(
            t,
            w,
            self.method,
            self.address,
            q,
            1,
            call.count,
            call.register,
        );
        let returned = slots::mask(w, Slot::Returned(q)).subset(self.next_result());
        Callees {
            given: prior.given && (receivers.subset(parameter) && arguments),
            returned: prior.returned && returned,
            raised: prior.raised.join(slots::mask(w, Slot::Leaving(q))),
        }
    }

    // What comes of all callees of a virtual call.
    fn take_callees(&self, call: Call) -> Callees
        ensures given { let p = program_of self.now in
            let c = claim_of self.now in
            let given = callee_given p c self.now.method self.now.address call.mask call.name call.count call.register in
            result.given ≡ every (method_count p) given }
        ensures returned { let p = program_of self.now in
            let c = claim_of self.now in
            let returned = callee_returned p c self.now.method self.now.address call.mask call.name call.count in
            result.returned ≡ every (method_count p) returned }
        ensures raised { let p = program_of self.now in
            let c = claim_of self.now in
            ((k : ℕ) → has result.raised k ≡ some (method_count p) (leaves_callee p c call.mask call.name call.count k)) }
    {
        let mut so_far = Callees {
            given: true,
            returned: true,
            raised: Mask::empty(),
        };
        for q in 0..program::method_count(self.sets.tables) {
            so_far = self.take_callee(call, so_far, q);
        }
        so_far
    }

    pub fn by_receiver(&self, name: u8, count: u8, register: u8) -> Option<usize>
        ensures value { result ≡ broken_at self.now (InvokeVirtual name count register) }
    {
        let mask = self.register(register);
        let callees = self.take_callees(Call {
            mask,
            name,
            count,
            register,
        });
        if !self.carries_on() {
            return Some(2);
        }
        if !callees.given {
            return Some(6);
        }
        if !callees.returned {
            return Some(7);
        }
        self.raised(sets::add(callees.raised, 2, mask.has(62)))
    }

    pub fn by_method(&self, method: u8, count: u8, register: u8) -> Option<usize>
        ensures value { result ≡ broken_at self.now (InvokeStatic method count register) }
    {
        let t = self.sets.tables;
        let q = method as usize;
        if !self.carries_on() {
            return Some(2);
        }
        if !carry::arguments(
            t,
            self.claim,
            self.method,
            self.address,
            q,
            0,
            count,
            register,
        ) {
            return Some(6);
        }
        if !slots::mask(self.claim, Slot::Returned(q)).subset(self.next_result()) {
            return Some(7);
        }
        self.raised(slots::mask(self.claim, Slot::Leaving(q)))
    }
}
