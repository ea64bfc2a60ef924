// What an instruction decides of the values that it looks at, and the work of an effect.
ghost use Rattle.std.specs.Prelude.{◌≡◌, ℕ};
ghost use Rattle.program.specs.Program.{Program};
ghost use Rattle.program.specs.Tables.{program_in};
ghost use Rattle.machine.specs.declared.Value as machine;
ghost use Rattle.cells.specs.Cells.{value_of};
ghost use Rattle.site.specs.Work.{goes_to, wrote, stored_in, kept_in, work_of, decided, signed_in, plain_of, classed_of, branch_of};

use super::{Gone, How, Work, field_a, field_b, field_c, field_d, opcode};
use cells::{NOWHERE, Value};
use instruction::{Condition, Unary};
use machine::Effect;

// The frame goes to an address, and nothing is written.
pub fn goes_to(next: u32, how: How) -> Work
    ensures value { result ≡ goes_to next how }
{
    Work {
        to: 16,
        value: Value::default(),
        object: NOWHERE,
        cell: 16,
        fixed: NOWHERE,
        gone: Gone {
            next: next as usize,
            how,
        },
        address: next,
    }
}

// The frame goes one on, and a register, a cell of an object or a static is written.
pub fn wrote(pc: u8, to: u8, value: Value) -> Work
    ensures value { result ≡ wrote pc to value }
{
    Work {
        to: (to % 16) as usize,
        value,
        ..goes_to(pc as u32 + 1, How::Went)
    }
}

pub fn stored(pc: u8, object: u32, cell: u8, value: Value) -> Work
    ensures value { result ≡ stored_in pc object cell value }
{
    Work {
        object: object as usize,
        cell: cell as usize,
        value,
        ..goes_to(pc as u32 + 1, How::Went)
    }
}

pub fn kept(pc: u8, fixed: u8, value: Value) -> Work
    ensures value { result ≡ kept_in pc fixed value }
{
    Work {
        fixed: fixed as usize,
        value,
        ..goes_to(pc as u32 + 1, How::Went)
    }
}

// What an effect at address pc comes to; the cell that it loads holds v, the static g.
pub fn work_of(pc: u8, v: Value, g: Value, e: Effect) -> Work
    ensures value { result ≡ work_of pc v g e }
{
    match e {
        Effect::Next => goes_to(pc as u32 + 1, How::Went),
        Effect::Jump { target } => goes_to(target, How::Went),
        Effect::Write { to, value } => wrote(pc, to, value.into()),
        Effect::Load { to, object, field } => wrote(pc, to, v),
        Effect::LoadStatic { to, place } => wrote(pc, to, g),
        Effect::Store {
            object,
            field,
            value,
        } => stored(pc, object, field, value.into()),
        Effect::StoreStatic { place, value } => kept(pc, place, value.into()),
        Effect::RaiseNew { class } => goes_to(pc as u32, How::Raises(class)),
        Effect::Fail { fault } => goes_to(pc as u32, How::Failed(fault)),
        _ => goes_to(pc as u32, How::Leaves),
    }
}

fn signed(w: u64) -> i32
    ensures value { result ≡ signed_in w }
{
    let [_, _, _, _, x, y, z, u] = w.to_be_bytes();
    instruction::signed(x, y, z, u)
}

// The instructions that look at no object and no static, but for `if` and binop.
#[tactic(auto, unfolding(crate::specs::Work::plain_of))]
pub fn plain(w: u64, x: Value, z: Value) -> Effect
    ensures value { (p : Program) → (y : machine.Value) → (k : ℕ) → result ≡ decided p (value_of x) y (value_of z) k (plain_of w) }
{
    let a = field_a(w);
    let o = opcode(w);
    // Each opcode has an arm of its own, as in `perform` of work: two in one arm are a test apart from the table of arms.
    match o {
        1 => Effect::Write {
            to: a,
            value: x.into(),
        },
        2 => Effect::Write {
            to: a,
            value: machine::Value::Number(signed(w)),
        },
        3 => Effect::Jump { target: field_d(w) },
        6 => decide::numbers::unop(a, Unary::from(field_c(w)), x.into()),
        14 => Effect::Write {
            to: a,
            value: z.into(),
        },
        15 => Effect::Write {
            to: a,
            value: z.into(),
        },
        _ => Effect::Next,
    }
}

#[tactic(auto, unfolding(crate::specs::Work::branch_of))]
pub fn branch(w: u64, x: Value, y: Value) -> Effect
    ensures value { (p : Program) → (z : machine.Value) → (k : ℕ) → result ≡ decided p (value_of x) (value_of y) z k (branch_of w) }
{
    let c = field_c(w);
    let d = field_d(w);
    let left = machine::Value::from(x);
    if c < 6 {
        return decide::numbers::branch(Condition::from(c), left, y.into(), d);
    }
    decide::numbers::branch(Condition::from(c % 6), left, machine::Value::Number(0), d)
}

// instance-of and check-cast.
#[tactic(auto, unfolding(crate::specs::Work::classed_of))]
pub fn classed(t: &[u64; 768], w: u64, x: Value, k: u32) -> Effect
    ensures value { (y z : machine.Value) → result ≡ decided (program_in t.now) (value_of x) y z k (classed_of w) }
{
    let v = machine::Value::from(x);
    if opcode(w) == 19 {
        return decide::objects::instance_of(t, k as usize, field_a(w), field_c(w), v);
    }
    decide::objects::check_cast(t, k as usize, field_a(w), field_b(w), v)
}
