// The frames due: how far the numbers of each part go, and what the frame at two numbers is like. Every function takes any tables and
// numbers.
ghost use Rattle.std.specs.Prelude.{◌≡◌};
ghost use Rattle.program.specs.Tables.{program_in};
ghost use Rattle.claim.specs.Frames.{outer, inner};
ghost use Rattle.claim.specs.Inside.{present, class_bits, frame_of};

use super::{Frame, Part};
use slots::Slot;

// How far the first number of a part's frames goes.
pub fn outer(t: &[u64; 768], k: Part) -> usize
    ensures value { result ≡ outer (program_in t.now) k }
{
    match k {
        Part::Address => program::method_count(t),
        Part::Field => program::class_count(t),
        Part::Static => program::static_count(t),
        Part::Returned => program::method_count(t),
        Part::Leaving => program::method_count(t),
    }
}

// How far the second goes.
pub fn inner(t: &[u64; 768], k: Part, a: usize) -> usize
    ensures value { result ≡ inner (program_in t.now) k a }
{
    match k {
        Part::Address => program::code_length(t, a),
        Part::Field => program::field_count(t),
        Part::Static => 1,
        Part::Returned => 1,
        Part::Leaving => 1,
    }
}

// Whether there is a frame at these two numbers.
pub fn present(t: &[u64; 768], k: Part, a: usize, b: usize) -> bool
    ensures value { result ≡ present (program_in t.now) k a b }
{
    match k {
        Part::Address => true,
        Part::Field => search::has_field(t, a, b),
        Part::Static => true,
        Part::Returned => true,
        Part::Leaving => true,
    }
}

// The bits of so many classes, at most 61.
fn class_bits(n: usize) -> u64
    ensures value { result ≡ class_bits n }
{
    if n < 61 {
        return (1 << n as u64) - 1;
    }
    2305843009213693951
}

// What the frame at these two numbers is like.
pub fn frame_of(t: &[u64; 768], k: Part, a: usize, b: usize) -> Frame
    ensures value { result ≡ frame_of (program_in t.now) k a b }
{
    let classes = class_bits(program::class_count(t));
    let values = classes + 13835058055282163712;
    match k {
        Part::Address => Frame {
            kind: 17,
            head: 6,
            registers: program::registers(t, a),
            last: slots::place(Slot::Result(a, b)),
            allowed: values,
        },
        Part::Field => Frame {
            kind: 18,
            head: 6,
            registers: 0,
            last: slots::place(Slot::Field(a, b)),
            allowed: values,
        },
        Part::Static => Frame {
            kind: 19,
            head: 4,
            registers: 0,
            last: slots::place(Slot::Static(a)),
            allowed: values,
        },
        Part::Returned => Frame {
            kind: 20,
            head: 4,
            registers: 0,
            last: slots::place(Slot::Returned(a)),
            allowed: values,
        },
        Part::Leaving => Frame {
            kind: 21,
            head: 4,
            registers: 0,
            last: slots::place(Slot::Leaving(a)),
            allowed: classes,
        },
    }
}
