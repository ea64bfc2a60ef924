// Document 01's marked cases: one table (specs/Marked.antt) and the theorem that each of its rows holds (proofs/Marked.antt). The one
// function calls the checker, so that what proofs/Sample.antt says of `Promised` is said of the checker's own promise.
#![tactic(auto)]

ghost use Rattle.checker.specs.Coverage.{Promised};

use verdict::Verdict;

// The checker's verdict, and its clauses as one record.
pub fn check(program: &[u8], claim: &[u8], memory: &mut [u8]) -> Verdict
    ensures promised { Promised program.now claim.now memory.old memory.new result }
{
    checker::check(program, claim, memory)
}
