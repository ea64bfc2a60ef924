// What is printed and told of a panel that is run for n steps.
ghost use Rattle.std.specs.Prelude.{◌≡◌, ◌++◌, ◌≤◌, length, drop};
ghost use Rattle.page.specs.Page.{Put};
ghost use Rattle.response.specs.Inside.{top_of};
ghost use Rattle.response.specs.Stepped.{run_said, run_told_for};

use crate::Response;
use bounded::Outcome;

// The number of the top frame, 0 where none is open.
fn top_of(o: Outcome) -> u8
    ensures value { result ≡ top_of o }
{
    match o {
        Outcome::Ran { frames, .. } => frames.saturating_sub(1),
        Outcome::Refused { .. } | Outcome::Short => 0,
    }
}

// Writes what is printed for the text of a panel that is run for at most n steps to the front of out, and what is told of it to the
// front of line, as much as goes in.
pub fn of_run(panel: &[u8], n: u64, table: &[u8], out: &mut [u8], line: &mut [u8]) -> Response
    ensures bytes { Put out.old 0 (run_said panel.now n) out.new result.printed }
    ensures whole { let x = run_said panel.now n in
        (44983 ≤ length out.old
        → (result.printed ≡ length x) × (out.new ≡ x ++ drop (length x) out.old)) }
    ensures words { let x = run_told_for table.now panel.now n in
        Put line.old 0 x line.new result.told }
    ensures all_words { let x = run_told_for table.now panel.now n in
        (200 ≤ length line.old → result.told ≡ length x) }
{
    let mut t = [0u64; 768];
    let mut fs = [0u64; 608]; // 32 frames
    let mut os = [0u64; 4352]; // 256 objects
    let mut ss = [0u64; 16]; // 16 statics
    let o = plain::step_in(panel, n, &mut t, &mut fs, &mut os, &mut ss);
    let printed = report::write_run(o, &t, &fs, &os, &ss, out);
    let place = memory::place_of(&fs, top_of(o));
    let told = words::tell_run(o, place.method, place.address, table, line);
    Response { printed, told }
}
