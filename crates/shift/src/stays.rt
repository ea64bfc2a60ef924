// Runs that stay in their frame: how they begin, go on and end.
ghost use Rattle.std.specs.Prelude.{◌≡◌};
ghost use Rattle.program.specs.Tables.{program_in};
ghost use Rattle.shift.specs.Stay.{site_of, goes_on, went_to, stay_of, again_left, left_word, at_of};

use super::{At, Run, Stay, top_of};
use site::{Gone, How, Site};

// Where the run stands.
pub fn site_of(t: &[u64; 768], k: Stay) -> Site
    ensures value { result ≡ site_of (program_in t.now) k }
{
    let word = program::code_word(t, k.method as usize, k.pc) as u64;
    Site {
        top: k.top,
        pc: (k.pc % 256) as u8,
        word,
        opcode: site::opcode(word),
    }
}

// Whether another instruction of the frame is to be done.
pub fn goes(t: &[u64; 768], k: Stay) -> bool
    ensures value { result ≡ goes_on (program_in t.now) k }
{
    matches!(k.how, How::Went) && k.left != 0 && k.pc < program::code_length(t, k.method as usize)
}

// One instruction further.
#[tactic(auto, using(crate::proofs::Places::before_is))]
pub fn went(k: Stay, g: Gone) -> Stay
    ensures value { result ≡ went_to k g }
{
    Stay {
        left: k.left.wrapping_sub(1),
        pc: g.next,
        how: g.how,
        ..k
    }
}

// A run whose top frame is at address a of method m.
pub fn stay_of(run: Run, m: u32, a: u32) -> Stay
    ensures value { result ≡ stay_of run m a }
{
    Stay {
        left: run.left,
        top: top_of(run.tally.depth),
        method: m,
        pc: a as usize,
        how: How::Went,
    }
}

// The steps that may still be made: an instruction that did not go to another address was no step.
#[tactic(auto, using(crate::proofs::Places::up_is))]
fn again_left(left: u64, how: How) -> u64
    ensures value { result ≡ again_left left how }
{
    match how {
        How::Went => left,
        _ => left.wrapping_add(1),
    }
}

// The word of the instruction that did not go to another address; 0 where the last one did.
fn left_word(t: &[u64; 768], how: How, m: u32, pc: usize) -> u64
    ensures value { result ≡ left_word (program_in t.now) how m pc }
{
    match how {
        How::Went => 0,
        _ => program::code_word(t, m as usize, pc) as u64,
    }
}

// Where a run has come to that stayed in its frame.
pub fn at_of(t: &[u64; 768], run: Run, j: Stay) -> At
    ensures value { result ≡ at_of (program_in t.now) run j }
{
    let word = left_word(t, j.how, j.method, j.pc);
    At {
        run: Run {
            left: again_left(j.left, j.how),
            ..run
        },
        pc: (j.pc % 256) as u8,
        opcode: site::opcode(word),
        word,
        how: j.how,
    }
}
