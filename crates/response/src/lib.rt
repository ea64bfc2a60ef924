// What the tool prints for its texts on standard output, and tells on standard error in the words of a table.
#![tactic(auto)]

mod stepped;
mod written;

ghost use Rattle.std.specs.Prelude.{◌≡◌, List, ◌++◌, ℕ, ◌≤◌, length, take};
ghost use Rattle.page.specs.Page.{Put, filled, filled_count};
ghost use Rattle.reader.specs.Read.{read_program};
ghost use Rattle.checker.specs.Check.{answer_for, memory_after};
ghost use Rattle.checker.specs.Coverage.{Coverage};
ghost use Rattle.report.specs.Printed.{accepted_word};
ghost use Rattle.response.specs.Claimed.{calls_said, longer, checking_of, said, claim_told};

pub use stepped::of_run;
use verdict::Verdict;
pub use written::of_panel;

// How many bytes are printed and told.
#[derive(Clone, Copy)]
pub struct Response {
    pub printed: usize,
    pub told: usize,
}

// The verdict on a claim that the checker finds too long.
fn judge_long(panel: &[u8], memory: &mut [u8]) -> Verdict
    requires { 24576 ≡ length memory.old }
    ensures verdict { result ≡ answer_for (longer (read_program panel.now)) }
    ensures memory { memory.new ≡ memory_after (longer (read_program panel.now)) memory.old }
{
    checker::check(panel, &[0; 262145], memory)
}

// The verdict. A claim of more than 65,536 bytes is too long.
fn judge(panel: &[u8], claim: &[u8], memory: &mut [u8]) -> Verdict
    requires { 24576 ≡ length memory.old }
    ensures verdict { result ≡ answer_for (checking_of panel.now claim.now) }
    ensures memory { memory.new ≡ memory_after (checking_of panel.now claim.now) memory.old }
{
    if claim.len() <= 65536 {
        checker::check(panel, claim, memory)
    } else {
        judge_long(panel, memory)
    }
}

// Writes what is printed for the texts of a panel and a claim to the front of out, nothing where it does not fit, and what is told
// of them to the front of line, as much as goes in. Printed as accepted: the claim and the calls printed cover every run.
pub fn of_claim(
    panel: &[u8],
    claim: &[u8],
    table: &[u8],
    out: &mut [u8],
    line: &mut [u8],
) -> Response
    ensures count { let x = said panel.now claim.now in
        result.printed ≡ filled_count x out.old }
    ensures bytes { let x = said panel.now claim.now in
        out.new ≡ filled x out.old }
    ensures whole { let x = said panel.now claim.now in
        (73737 ≤ length out.old → result.printed ≡ length x) }
    ensures words { let x = claim_told table.now panel.now claim.now in
        Put line.old 0 x line.new result.told }
    ensures all_words { let x = claim_told table.now panel.now claim.now in
        (200 ≤ length line.old → result.told ≡ length x) }
    ensures coverage { let printed = take result.printed out.new in
        ((lines : List ℕ) → printed ≡ accepted_word ++ lines
        → Coverage panel.now claim.now (calls_said lines)) }
{
    let mut memory = [0u8; 24576];
    let v = judge(panel, claim, &mut memory);
    let printed = report::write(v, &memory, out);
    let told = words::tell(v, table, line);
    Response { printed, told }
}
