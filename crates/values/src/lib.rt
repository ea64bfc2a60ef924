// What each frame's values are asked.
#![tactic(auto)]

ghost use Rattle.std.specs.Prelude.{◌≡◌, not, ◌&&◌, ◌||◌, ℕ, ◌+◌, eqb, ltb};
ghost use Rattle.instruction.specs.Test.{passes};
ghost use Rattle.instruction.specs.Word.{pick};
ghost use Rattle.program.specs.Program.{throwable_class, class_count};
ghost use Rattle.program.specs.Tables.{program_in};
ghost use Rattle.values.specs.Values.{built_in, super_test, class_test, field_test, header_test, alike, repeated, method_test, limits_of};
ghost use Rattle.values.specs.Values.{static_test, call_test, instruction_test, last_test, range_test, handler_test, instruction_mark};

use instruction::Instruction;
use operands::Limits;

// A line's mark, by whether its values are allowed.
pub fn value_mark(fits: bool) -> usize
    ensures value { result ≡ pick fits 0 5 }
{
    if fits { 0 } else { 5 }
}

// Whether the machine itself makes objects of class c.
fn built_in(c: usize) -> bool
    ensures value { result ≡ built_in c }
{
    2 <= c && c <= 4
}

// The superclass of a class that is not class 0.
fn below_fits(c: usize, s: usize) -> bool
    ensures value { result ≡ ltb s c && (not (built_in c) || eqb s throwable_class) }
{
    s < c && (!built_in(c) || s == 1)
}

fn super_fits(c: usize, s: usize) -> bool
    ensures value { result ≡ passes (super_test c s) }
{
    if c == 0 { s == 255 } else { below_fits(c, s) }
}

pub fn class_fits(t: &[u64; 768], c: usize) -> bool
    ensures value { result ≡ passes (class_test (program_in t.now) c) }
{
    super_fits(c, program::superclass(t, c))
}

pub fn field_fits(t: &[u64; 768], f: usize) -> bool
    ensures value { result ≡ passes (field_test (program_in t.now) f) }
{
    program::field_class(t, f) < program::class_count(t)
}

// The fields of a method's frame but for its name.
fn header_fits(classes: usize, m: usize, class: usize, kind: usize, r: usize, a: usize) -> bool
    ensures value { result ≡ passes (header_test classes m class kind r a) }
{
    class < classes
        && kind < 2
        && 0 < r
        && r <= 16
        && a <= r
        && (kind != 0 || 0 < a)
        && (m != 0 || kind == 1 && a == 0)
}

// Whether methods k and m share class and name.
#[tactic(auto, unfolding(crate::specs::Values::alike))]
fn alike(t: &[u64; 768], m: usize, k: usize) -> bool
    ensures value { result ≡ alike (program_in t.now) m k }
{
    program::method_class(t, k) == program::method_class(t, m)
        && program::method_name(t, k) == program::method_name(t, m)
}

// Whether an earlier method has the class and name of method m.
fn repeated(t: &[u64; 768], m: usize) -> bool
    ensures value { result ≡ repeated (program_in t.now) m }
{
    for k in 0..m {
        if alike(t, m, k) {
            return true;
        }
    }
    false
}

pub fn method_fits(t: &[u64; 768], m: usize) -> bool
    ensures value { result ≡ passes (method_test (program_in t.now) m) }
{
    let fits = header_fits(
        program::class_count(t),
        m,
        program::method_class(t, m),
        program::method_kind(t, m),
        program::registers(t, m),
        program::arguments(t, m),
    );
    fits && !repeated(t, m)
}

// What an instruction of method m can name.
fn limits_of(t: &[u64; 768], m: usize) -> Limits
    ensures value { result ≡ limits_of (program_in t.now) m }
{
    Limits {
        registers: program::registers(t, m) as u64,
        length: program::code_length(t, m) as u64,
        classes: program::class_count(t) as u64,
        fields: program::field_count(t) as u64,
        statics: program::static_count(t) as u64,
        methods: program::method_count(t) as u64,
    }
}

// Whether a static call fits its method.
fn call_fits(t: &[u64; 768], i: Instruction) -> bool
    ensures value { result ≡ passes (call_test (program_in t.now) i) }
{
    let Instruction::InvokeStatic {
        method,
        count,
        first,
    } = i
    else {
        return true;
    };
    let m = method as usize;
    let b = count as usize;
    program::method_kind(t, m) == 1 && program::arguments(t, m) == b && (b != 0 || first == 0)
}

fn instruction_fits(t: &[u64; 768], m: usize, pc: usize) -> bool
    ensures value { result ≡ passes (instruction_test (program_in t.now) m pc) }
{
    let w = program::code_word(t, m, pc) as u64;
    let i = instruction::decode(w);
    instruction::encode(i) == w && operands::names_fit(limits_of(t, m), i) && call_fits(t, i)
}

// Whether an instruction is its method's last and falls through.
fn ends_badly(t: &[u64; 768], m: usize, pc: usize) -> bool
    ensures value { not result ≡ passes (last_test (program_in t.now) m pc) }
{
    let n = program::code_length(t, m);
    pc < n && pc + 1 == n && operands::falls_through(program::instruction_at(t, m, pc))
}

#[tactic(auto, unfolding(crate::specs::Values::instruction_mark))]
pub fn instruction_mark(t: &[u64; 768], m: usize, pc: usize) -> usize
    ensures value { result ≡ instruction_mark (program_in t.now) m pc }
{
    if !instruction_fits(t, m, pc) {
        return 5;
    }
    if ends_badly(t, m, pc) {
        return 6;
    }
    0
}

// f < t ≤ length, the target and the class exist.
fn range_fits(length: usize, classes: usize, f: usize, t: usize, g: usize, c: usize) -> bool
    ensures value { result ≡ passes (range_test length classes f t g c) }
{
    f < t && t <= length && g < length && c < classes
}

pub fn handler_fits(t: &[u64; 768], m: usize, h: usize) -> bool
    ensures value { result ≡ passes (handler_test (program_in t.now) m h) }
{
    range_fits(
        program::code_length(t, m),
        program::class_count(t),
        program::handler_from(t, m, h),
        program::handler_to(t, m, h),
        program::handler_target(t, m, h),
        program::handler_class(t, m, h),
    )
}
