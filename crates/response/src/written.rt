// What is printed and told of a panel whose claim is written.
ghost use Rattle.std.specs.Prelude.{◌≡◌, [], ◌≤◌, length, take};
ghost use Rattle.page.specs.Page.{Put, filled, filled_count};
ghost use Rattle.program.specs.Program.{Program};
ghost use Rattle.reader.specs.Read.{taken, read_program};
ghost use Rattle.writer.specs.Claimed.{LeastFor};
ghost use Rattle.report.specs.Printed.{printed};
ghost use Rattle.words.specs.Told.{told};
ghost use Rattle.response.specs.Written.{claim_said, panel_told};

use crate::Response;
use output::Output;
use verdict::Verdict;

// Writes what is printed and told of a refusal.
fn refuse(v: Verdict, table: &[u8], out: &mut [u8], line: &mut [u8]) -> Response
    ensures count { result.printed ≡ filled_count (printed v []) out.old }
    ensures bytes { out.new ≡ filled (printed v []) out.old }
    ensures words { Put line.old 0 (told table.now v) line.new result.told }
{
    let printed = report::write(v, b"", out);
    let told = words::tell(v, table, line);
    Response { printed, told }
}

// Writes the text of the least claim of a panel to the front of out, or what is printed of a refusal, nothing where that does not fit, and
// what is told of it to the front of line, as much as goes in.
pub fn of_panel(panel: &[u8], table: &[u8], out: &mut [u8], line: &mut [u8]) -> Response
    ensures count { let x = claim_said panel.now (length out.old) in
        result.printed ≡ filled_count x out.old }
    ensures bytes { let x = claim_said panel.now (length out.old) in
        out.new ≡ filled x out.old }
    ensures whole { let x = claim_said panel.now (length out.old) in
        (165936 ≤ length out.old → result.printed ≡ length x) }
    ensures words { let x = panel_told table.now panel.now (length out.old) in
        Put line.old 0 x line.new result.told }
    ensures all_words { let x = panel_told table.now panel.now (length out.old) in
        (200 ≤ length line.old → result.told ≡ length x) }
    ensures least { let text = take result.printed out.new in
        ((p : Program) → read_program panel.now ≡ taken p
        → 165936 ≤ length out.old
        → LeastFor panel.now text) }
{
    match writer::write_claim(panel, &mut *out) {
        Output::Written(n) => Response {
            printed: n,
            told: 0,
        },
        Output::Refused { number, line: at } => refuse(
            Verdict::Refused { number, line: at },
            table,
            out,
            line,
        ),
        Output::Short => refuse(Verdict::Short, table, out, line),
    }
}
