// The instruction at a start: the word of its frame, or its refusal.
ghost use Rattle.std.specs.Prelude.{◌≡◌, ◌+◌, ◌/◌, ◌<◌, length};
ghost use Rattle.units.specs.Units.{units_of, unit_at, length_at};
ghost use Rattle.units.specs.Formats.{opcode_at};
ghost use Rattle.units.specs.Frames.{plain_fine, plain_frame};
ghost use Rattle.translator.specs.Inside.{Stands, Known, Sought, branch_target, SoughtFor, word_by, branch_checked, checked_at, refusal_of};

use crate::walk::{Line, Start};
use crate::{branches, straight, walk};
use units::{Branch, Opcode, Plain};

// Why the instruction at a start is refused.
#[derive(Clone, Copy)]
pub enum Fault {
    CutShort,
    Unknown,
    Broken,
}

// The number of the refusal.
impl From<Fault> for usize {
    ghost from_gives = { λ f n. n ≡ refusal_of f };

    fn from(f: Fault) -> Self {
        match f {
            Fault::CutShort => 25,
            Fault::Unknown => 26,
            Fault::Broken => 27,
        }
    }
}

// The start that a branch leads to, if it leads to one; for any other opcode the one that was found last.
pub fn sought(line: Line<'_>, starts: &[usize], found: Start, here: Start, o: Opcode) -> Start
    requires { (here.place < length line.text.now / 4)
        × Stands (units_of line.text.now) found
        × Known (units_of line.text.now) starts.now here }
    ensures sought { SoughtFor (units_of line.entry.text.now) here.place o result }
{
    let Opcode::Branch(b) = o else {
        return found;
    };
    let at = here.place;
    let u = line.unit(at);
    let v = line.unit(at + 1);
    let w = line.unit(at + 2);
    let place = branches::target_of(line.count(), at, b, u, v, w);
    if place < at {
        walk::known(starts, here, place)
    } else {
        line.seek(found, here, place)
    }
}

// An opcode without an offset.
fn plain_at(line: Line<'_>, at: usize, o: Plain) -> Result<u64, Fault>
    requires { at < length line.text.now / 4 }
    ensures value { let us = units_of line.entry.text.now in
        let u = unit_at us at in
        let v = unit_at us (at + 1) in
        let w = unit_at us (at + 2) in
        result ≡ word_by (plain_fine o u v w) (plain_frame o u v w) }
{
    let u = line.unit(at);
    let v = line.unit(at + 1);
    let w = line.unit(at + 2);
    if straight::is_plain_fine(o, u, v, w) {
        Ok(instruction::encode(straight::plain_frame(o, u, v, w)))
    } else {
        Err(Fault::Broken)
    }
}

// A branch, and the start that it leads to, if it leads to one.
fn branch_at(line: Line<'_>, start: Start, at: usize, b: Branch) -> Result<u64, Fault>
    requires { (at < length line.text.now / 4)
        × Sought (units_of line.text.now) (branch_target (units_of line.text.now) at b) start }
    ensures value { result ≡ branch_checked (units_of line.entry.text.now) at b }
{
    let end = line.count();
    let u = line.unit(at);
    let v = line.unit(at + 1);
    let w = line.unit(at + 2);
    let place = branches::target_of(end, at, b, u, v, w);
    let to = start.address;
    let there = (start.place == place) & ((place < end) & (to < 4294967296));
    if branches::is_branch_fine(there, b, u, v) {
        Ok(instruction::encode(branches::branch_frame((to % 4294967296) as u32, b, u)))
    } else {
        Err(Fault::Broken)
    }
}

// The instruction of an opcode with n units at a start, and the start that a branch leads to, if it leads to one.
pub fn check_at(
    line: Line<'_>,
    target: Start,
    here: Start,
    n: usize,
    o: Opcode,
) -> Result<u64, Fault>
    requires { (here.place < length line.text.now / 4)
        × (n ≡ length_at (units_of line.text.now) here.place)
        × (o ≡ opcode_at (units_of line.text.now) here.place)
        × SoughtFor (units_of line.text.now) here.place o target }
    ensures value { result ≡ checked_at (units_of line.entry.text.now) here.place here.address }
{
    let at = here.place;
    if n > line.count() - at {
        return Err(Fault::CutShort);
    }
    match o {
        Opcode::NotTaken => Err(Fault::Unknown),
        Opcode::Plain(p) => {
            if here.address >= 32 {
                return Err(Fault::Broken);
            }
            plain_at(line, at, p)
        }
        Opcode::Branch(b) => {
            if here.address >= 32 {
                return Err(Fault::Broken);
            }
            branch_at(line, target, at, b)
        }
    }
}
