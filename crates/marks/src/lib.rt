// Field values of a program in tables: the first line whose values document 01 does not allow.
#![tactic(auto)]

ghost use Rattle.std.specs.Prelude.{◌≡◌, ℕ, ◌+◌, ◌≤◌};
ghost use Rattle.program.specs.Program.{method_count};
ghost use Rattle.program.specs.Tables.{program_in};
ghost use Rattle.program.specs.Lists.{joined};
ghost use Rattle.marks.specs.Marks.{marks, marks_in, method_marks, mark_at, lines_in, first_mark};

use frame::Kind;

// Where a walk stopped: a refusal's number and line, or 0 and the line after the last.
#[derive(Clone, Copy)]
pub struct Stop {
    pub number: usize,
    pub line: usize,
}

// How many lines of a kind stand together.
fn lines_in(t: &[u64; 768], k: Kind, m: usize) -> usize
    ensures value { result ≡ lines_in (program_in t.now) k m }
{
    match k {
        Kind::Class => program::class_count(t),
        Kind::Field => program::field_count(t),
        Kind::Static => program::static_count(t),
        Kind::Header => 1,
        Kind::Handler => program::handler_count(t, m),
        Kind::Code => program::code_length(t, m),
        Kind::Unknown => 0,
    }
}

// The mark of line i among them: its refusal, or 0.
fn mark_at(t: &[u64; 768], k: Kind, m: usize, i: usize) -> usize
    ensures value { result ≡ mark_at (program_in t.now) k m i }
{
    match k {
        Kind::Class => values::value_mark(values::class_fits(t, i)),
        Kind::Field => values::value_mark(values::field_fits(t, i)),
        Kind::Static => 0,
        Kind::Header => values::value_mark(values::method_fits(t, m)),
        Kind::Handler => {
            let h = program::from_last(program::handler_count(t, m), i);
            values::value_mark(values::handler_fits(t, m, h))
        }
        Kind::Code => values::instruction_mark(t, m, i),
        Kind::Unknown => 0,
    }
}

// The first marked line of a kind.
fn scan(t: &[u64; 768], k: Kind, m: usize, line: usize) -> Stop
    requires { line ≤ 1000 }
    ensures value { result ≡ first_mark (marks_in (program_in t.now) k m) line }
{
    let n = lines_in(t, k, m);
    for i in 0..n {
        let mark = mark_at(t, k, m, i);
        if mark != 0 {
            return Stop {
                number: mark,
                line: line + i,
            };
        }
    }
    Stop {
        number: 0,
        line: line + n,
    }
}

// The first marked line of a method.
fn scan_method(t: &[u64; 768], m: usize, line: usize) -> Stop
    requires { line ≤ 900 }
    ensures value { result ≡ first_mark (method_marks (program_in t.now) m) line }
{
    let header = scan(t, Kind::Header, m, line);
    if header.number != 0 {
        return header;
    }
    let code = scan(t, Kind::Code, m, header.line);
    if code.number != 0 {
        return code;
    }
    scan(t, Kind::Handler, m, code.line)
}

// The first marked line of all methods.
fn scan_methods(t: &[u64; 768], line: usize) -> Stop
    requires { line ≤ 100 }
    ensures value { result ≡ first_mark (joined (method_count (program_in t.now)) (method_marks (program_in t.now))) line }
{
    let n = program::method_count(t);
    let mut at = line;
    for m in 0..n {
        let s = scan_method(t, m, at);
        if s.number != 0 {
            return s;
        }
        at = s.line;
    }
    Stop {
        number: 0,
        line: at,
    }
}

// The first line with a value that is not allowed, or whose instruction is the last and falls through.
pub fn first_mark(t: &[u64; 768]) -> Stop
    ensures value { result ≡ first_mark (marks (program_in t.now)) 1 }
{
    let classes = scan(t, Kind::Class, 0, 1);
    if classes.number != 0 {
        return classes;
    }
    let fields = scan(t, Kind::Field, 0, classes.line);
    if fields.number != 0 {
        return fields;
    }
    let statics = scan(t, Kind::Static, 0, fields.line);
    scan_methods(t, statics.line)
}
