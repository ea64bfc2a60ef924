// Opcodes with an offset: where it leads, what is asked of the units, and the instruction frame.
ghost use Rattle.std.specs.Prelude.{◌≡◌, ◌≤◌, ◌<◌};
ghost use Rattle.instruction.specs.Test.{Test, passes};
ghost use Rattle.units.specs.Formats.{landing, target_of};
ghost use Rattle.units.specs.Frames.{branch_fine, branch_frame};

use instruction::Instruction;
use units::Branch;

// Where an offset of 2 half values, the upper half negative, leads from a place: before the first, to the end.
#[tactic(auto, unfolding(units::specs::Formats::landing))]
fn landing_of(end: usize, at: usize, half: usize, offset: usize) -> usize
    requires { (at < 4611686018427387904) × (half ≤ 2147483648) × (offset < 4294967296) }
    ensures value { result ≡ landing end at half offset }
{
    if offset < half {
        at + offset
    } else if at + offset < 2 * half {
        end
    } else {
        at + offset - 2 * half
    }
}

// The place that a branch at a place leads to, in a method that ends at `end`; from a place past all texts, the end.
pub fn target_of(end: usize, at: usize, b: Branch, u: u16, v: u16, w: u16) -> usize
    ensures value { at < 4611686018427387904 → result ≡ target_of end at b u v w }
{
    if at >= 4611686018427387904 {
        return end;
    }
    match b {
        Branch::Goto => landing_of(end, at, 128, (u / 256 % 256) as usize),
        Branch::Goto32 => landing_of(end, at, 2147483648, v as usize + 65536 * w as usize),
        Branch::Goto16 | Branch::If { .. } | Branch::IfZero { .. } => {
            landing_of(end, at, 32768, v as usize)
        }
    }
}

// What refusal 27 asks of a branch, where `there` is what it asks of the target.
pub fn is_branch_fine(there: bool, b: Branch, u: u16, v: u16) -> bool
    ensures value { (t : Test) → there ≡ passes t → result ≡ passes (branch_fine t b u v) }
{
    match b {
        Branch::Goto => u / 256 % 256 != 0 && there,
        Branch::Goto16 => u / 256 % 256 == 0 && v != 0 && there,
        Branch::Goto32 => u / 256 % 256 == 0 && there,
        Branch::If { .. } | Branch::IfZero { .. } => v != 0 && there,
    }
}

// The instruction of a branch whose target has address `to`.
pub fn branch_frame(to: u32, b: Branch, u: u16) -> Instruction
    ensures value { result ≡ branch_frame to b u }
{
    let aa = (u / 256 % 256) as u8;
    let left = (u / 256 % 16) as u8;
    let right = (u / 4096 % 16) as u8;
    match b {
        Branch::Goto | Branch::Goto16 | Branch::Goto32 => Instruction::Goto { target: to },
        Branch::If { condition } => Instruction::If {
            condition,
            left,
            right,
            target: to,
        },
        Branch::IfZero { condition } => Instruction::IfZero {
            condition,
            register: aa,
            target: to,
        },
    }
}
