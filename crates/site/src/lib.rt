// Instructions that stay in their frame: which values they look at, and what they come to. All of it by value: lent slices are
// read and written by `work`.
#![tactic(auto)]

mod effects; // effects.rt: what an instruction decides, and the work of an effect
mod kinds; // kinds.rt: the kinds of instruction, and the work of each

ghost use Rattle.std.specs.Prelude.{◌≡◌};
ghost use Rattle.site.specs.Site.{opcode_of, a_of, b_of, c_of, d_of, first_of, second_of, want_of, left_at};

use cells::Value;
pub use kinds::{Binop, Branch, Class, Iget, Iput, Kind, Plain, Sget, Sput};
use machine::Fault;

// Where an instruction stands: frame `top`, its address, its word, its opcode.
#[derive(Clone, Copy)]
pub struct Site {
    pub top: usize,
    pub pc: u8,
    pub word: u64,
    pub opcode: u8,
}

// How an instruction ends: the frame goes to another address, the instruction is one that does not stay in its frame, a new object of
// a class is raised, or a fault.
#[derive(Clone, Copy)]
pub enum How {
    Went,
    Leaves,
    Raises(u8),
    Failed(Fault),
}

#[derive(Clone, Copy)]
pub struct Gone {
    pub next: usize,
    pub how: How,
}

// What is to be read: two registers, a cell of the first one's object, a static; and what stands where there is none.
#[derive(Clone, Copy)]
pub struct Want {
    pub first: usize,
    pub second: usize,
    pub field: usize,
    pub fixed: usize,
    pub none: Value,
    pub class: u32,
}

// What is read: two registers, the frame's result, the class and a cell of the first one's object, a static.
#[derive(Clone, Copy)]
pub struct Seen {
    pub first: Value,
    pub second: Value,
    pub result: Value,
    pub class: u32,
    pub cell: Value,
    pub fixed: Value,
}

// What is written: a value to a register, to a cell of an object or to a static, and the frame's address. Places past the end are
// nowhere.
#[derive(Clone, Copy)]
pub struct Work {
    pub to: usize,
    pub value: Value,
    pub object: usize,
    pub cell: usize,
    pub fixed: usize,
    pub gone: Gone,
    pub address: u32,
}

#[tactic(auto, unfolding(crate::specs::Site::opcode_of))]
pub fn opcode(w: u64) -> u8
    ensures value { result ≡ opcode_of w }
{
    let [o, _, _, _, _, _, _, _] = w.to_be_bytes();
    o
}

#[tactic(auto, unfolding(crate::specs::Site::a_of))]
pub fn field_a(w: u64) -> u8
    ensures value { result ≡ a_of w }
{
    let [_, a, _, _, _, _, _, _] = w.to_be_bytes();
    a
}

#[tactic(auto, unfolding(crate::specs::Site::b_of))]
pub fn field_b(w: u64) -> u8
    ensures value { result ≡ b_of w }
{
    let [_, _, b, _, _, _, _, _] = w.to_be_bytes();
    b
}

#[tactic(auto, unfolding(crate::specs::Site::c_of))]
pub fn field_c(w: u64) -> u8
    ensures value { result ≡ c_of w }
{
    let [_, _, _, c, _, _, _, _] = w.to_be_bytes();
    c
}

#[tactic(auto, unfolding(crate::specs::Site::d_of))]
pub fn field_d(w: u64) -> u32
    ensures value { result ≡ d_of w }
{
    (w % 4294967296) as u32
}

fn first_of(o: u8, w: u64) -> u8
    ensures value { result ≡ first_of o w }
{
    match o {
        4 | 11 | 20 => field_a(w),
        _ => field_b(w),
    }
}

fn second_of(o: u8, w: u64) -> u8
    ensures value { result ≡ second_of o w }
{
    match o {
        4 => field_b(w),
        9 => field_a(w),
        _ => field_c(w),
    }
}

// Which values the instruction looks at. A register's number is below 16: so no test of it is compiled.
#[tactic(auto, unfolding(crate::specs::Site::want_of))]
pub fn wanted(s: Site) -> Want
    ensures value { result ≡ want_of s }
{
    let o = s.opcode;
    Want {
        first: (first_of(o, s.word) % 16) as usize,
        second: (second_of(o, s.word) % 16) as usize,
        field: field_c(s.word) as usize,
        fixed: field_b(s.word) as usize,
        none: Value::default(),
        class: 64,
    }
}

// An instruction that does not stay in its frame.
pub fn left(s: Site) -> Gone
    ensures value { result ≡ left_at s }
{
    Gone {
        next: s.pc as usize,
        how: How::Leaves,
    }
}
