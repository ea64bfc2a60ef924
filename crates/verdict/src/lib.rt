// What the checker answers: the claim is accepted, or the first broken rule and its place, or a refusal.
#![tactic(auto)]

ghost use Rattle.std.specs.Prelude.{◌≡◌};
ghost use Rattle.verdict.specs.Numbers.{number_of};

#[derive(Clone, Copy)]
pub enum Verdict {
    // So many calls stand in the call list.
    Accepted(usize),
    Violated {
        rule: usize,
        method: usize,
        address: usize,
    },
    // A refusal of the program's text or the claim's, with its line.
    // Stays: clause `verdict` of `checker::check` gives C this number, by `answer_for`, and it is printed.
    Refused {
        number: usize,
        line: usize,
    },
    // Too little memory is lent.
    Short,
}

// The number of a verdict.
pub fn number_of(v: Verdict) -> usize
    ensures value { result ≡ number_of v }
{
    match v {
        Verdict::Accepted(_) => 34,
        Verdict::Violated { .. } => 35,
        Verdict::Refused { number, .. } => number,
        Verdict::Short => 23,
    }
}
