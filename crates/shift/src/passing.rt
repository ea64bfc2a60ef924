// Arguments that are passed one by one.
ghost use Rattle.std.specs.Prelude.{◌≡◌};
ghost use Rattle.shift.specs.Shift.{passed_of};

use super::Pass;

// One argument fewer, at the next registers. A test that stops at the last number of a word is not compiled.
#[tactic(auto, using(crate::proofs::Places::up_is))]
pub fn passed(p: Pass) -> Pass
    ensures value { result ≡ passed_of p }
{
    Pass {
        from: p.from.wrapping_add(1),
        to: p.to.wrapping_add(1),
        count: p.count.saturating_sub(1),
        ..p
    }
}
