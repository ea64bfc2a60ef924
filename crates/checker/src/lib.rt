// The checker: whether a claim meets every flow rule of a program. The call list goes to the front of lent memory.
#![tactic(auto)]

ghost use Rattle.std.specs.Prelude.{◌≡◌, ℕ, length};
ghost use Rattle.verdict.specs.declared.Verdict.TheVariants.{Accepted};
ghost use Rattle.verdict.specs.Numbers.{number_of, values_of};
ghost use Rattle.program.specs.Tables.{program_in};
ghost use Rattle.slots.specs.Layout.{claim_in};
ghost use Rattle.claim.specs.ReadClaim.{read_claim};
ghost use Rattle.calls.specs.Bytes.{calls_in};
ghost use Rattle.checker.specs.Check.{judged, with_claim, checking, answer_for, checking_number, checking_values, memory_after};
ghost use Rattle.checker.specs.Coverage.{Coverage};

use verdict::Verdict;

// The verdict on the claim that stands in words.
fn judge(t: &[u64; 768], w: &[u64; 9712], memory: &mut [u8]) -> Verdict
    ensures verdict { let x = judged (program_in t.now) (claim_in w.now) (length memory.old) in
        result ≡ answer_for x }
    ensures memory { let x = judged (program_in t.now) (claim_in w.now) (length memory.old) in
        memory.new ≡ memory_after x memory.old }
{
    if memory.len() < 24576 {
        return Verdict::Short;
    }
    match rules::first_broken(t, w) {
        Some(broken) => Verdict::Violated {
            rule: broken.rule,
            method: broken.method,
            address: broken.address,
        },
        None => Verdict::Accepted(calls::write_calls(t, w, memory)),
    }
}

// The verdict on a claim's text, by way of words for its masks.
fn check_claim(t: &[u64; 768], claim: &[u8], w: &mut [u64; 9712], memory: &mut [u8]) -> Verdict
    ensures verdict { let p = program_in t.now in
        let x = with_claim p (length memory.old) (read_claim p claim.now) in
        result ≡ answer_for x }
    ensures memory { let p = program_in t.now in
        let x = with_claim p (length memory.old) (read_claim p claim.now) in
        memory.new ≡ memory_after x memory.old }
{
    if let Err(refused) = claim::fill(t, claim, &mut *w) {
        return Verdict::Refused {
            number: refused.number() as usize,
            line: refused.line(),
        };
    }
    judge(t, w, memory)
}

// The same, with words of its own.
fn check_tables(t: &[u64; 768], claim: &[u8], memory: &mut [u8]) -> Verdict
    ensures verdict { let p = program_in t.now in
        let x = with_claim p (length memory.old) (read_claim p claim.now) in
        result ≡ answer_for x }
    ensures memory { let p = program_in t.now in
        let x = with_claim p (length memory.old) (read_claim p claim.now) in
        memory.new ≡ memory_after x memory.old }
{
    let mut w = [0u64; 9712];
    check_claim(t, claim, &mut w, memory)
}

// The verdict on a program's text and a claim's, by way of tables for the program.
fn check_by(program: &[u8], claim: &[u8], t: &mut [u64; 768], memory: &mut [u8]) -> Verdict
    ensures verdict { result ≡ answer_for (checking program.now claim.now (length memory.old)) }
    ensures memory { let x = checking program.now claim.now (length memory.old) in
        memory.new ≡ memory_after x memory.old }
{
    if let Err(refused) = reader::fill(program, &mut *t) {
        return Verdict::Refused {
            number: refused.number() as usize,
            line: refused.line(),
        };
    }
    check_tables(t, claim, memory)
}

// The verdict on a program's text and a claim's. Accepted: the call list stands at the front of lent memory, three bytes a call, and
// nothing past it is touched. Else nothing is touched.
pub fn check(program: &[u8], claim: &[u8], memory: &mut [u8]) -> Verdict
    ensures verdict { result ≡ answer_for (checking program.now claim.now (length memory.old)) }
    ensures numbers { let x = checking program.now claim.now (length memory.old) in
        (number_of result ≡ checking_number x) × (values_of result ≡ checking_values x) }
    ensures memory { let x = checking program.now claim.now (length memory.old) in
        memory.new ≡ memory_after x memory.old }
    ensures coverage { let after = memory.new in
        ((k : ℕ) → result ≡ Accepted k → Coverage program.now claim.now (calls_in k after)) }
{
    let mut t = [0u64; 768];
    check_by(program, claim, &mut t, memory)
}
