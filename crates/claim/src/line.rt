// One line taken as the frame due: its masks into words, or the number of its refusal.
ghost use Rattle.std.specs.Prelude.{◌≡◌, true, List, [], ◌∷◌, ◌++◌, ℕ, ◌+◌, ◌*◌, ◌≤◌, ◌<◌, length, take, drop, set};
ghost use Rattle.std.proofs.Math.Option.{some, none};
ghost use Rattle.text.specs.Hex.{Line, all_digits, number_of, digits_at};
ghost use Rattle.instruction.specs.Word.{pick};
ghost use Rattle.mask.specs.Mask.{subset};
ghost use Rattle.program.specs.Lists.{tab};
ghost use Rattle.program.specs.Tables.{program_in};
ghost use Rattle.flow.specs.Claim.{Slot, register_at};
ghost use Rattle.slots.specs.Layout.{place_of, mask_of};
ghost use Rattle.reader.specs.Inside.{line_at};
ghost use Rattle.claim.specs.Inside.{is_frame, other_number, due_at, mask_in, masks_in, take_whole, after_line};

use super::{Frame, Part, due};
use mask::Mask;

// Whether a whole line is the frame due, by kind, numbers and length. The line's digits are tested.
fn is_due(text: &[u8], at: usize, digits: usize, f: Frame, a: usize, b: usize) -> bool
    requires { let line = take digits (drop at text.now) in
        (at + digits < length text.now) × (all_digits line ≡ true) × (4 ≤ f.head) × (f.head ≤ 6) × (f.registers ≤ 255) }
    ensures value { result ≡ is_frame f a b (line_at text.now at digits) }
{
    if digits != f.head + 16 * (f.registers + 1) {
        return false;
    }
    if text::two_at(text, at) != f.kind {
        return false;
    }
    if text::two_at(text, at + 2) != a as u64 {
        return false;
    }
    if f.head == 4 {
        return true;
    }
    text::two_at(text, at + 4) == b as u64
}

// The refusal's number of a whole line that is not the frame due.
pub fn other_number(text: &[u8], at: usize) -> usize
    ensures value { result ≡ other_number (number_of (digits_at text.now at 2)) }
{
    let kind = text::number_at(text, at, 2);
    if kind < 17 {
        return 11;
    }
    if 21 < kind {
        return 11;
    }
    12
}

// The bits of the mask after another: the same where the digits repeat. The line's digits are tested.
fn mask_after(text: &[u8], at: usize, bits: u64) -> u64
    requires { (at + 32 ≤ length text.now) × (all_digits (take 32 (drop at text.now)) ≡ true) × (bits ≡ mask_in text.now at) }
    ensures value { result ≡ mask_in text.now (at + 16) }
{
    if text::repeats(text, at) {
        bits
    } else {
        text::sixteen_at(text, at + 16)
    }
}

// Puts a mask into words; false, and nothing, where it has a bit that is not allowed.
fn put_mask(w: &mut [u64; 9712], place: usize, bits: u64, allowed: u64) -> bool
    ensures value { result ≡ subset (mask_of bits) (mask_of allowed) }
    ensures memory { w.new ≡ pick result (set w.old place bits) w.old }
{
    let m = Mask { bits };
    let all = Mask { bits: allowed };
    if !m.subset(all) {
        return false;
    }
    slots::put(w, place, bits);
    true
}

// Takes the masks of n registers, and one more at a place of its own; false where one has a bit that is not allowed. The line's digits
// are tested.
fn take_masks(
    text: &[u8],
    at: usize,
    n: usize,
    allowed: u64,
    m: usize,
    pc: usize,
    last: usize,
    w: &mut [u64; 9712],
) -> bool
    requires { (at + 16 * (n + 1) ≤ length text.now) × (n ≤ 255) × (all_digits (take (16 * (n + 1)) (drop at text.now)) ≡ true) }
    ensures masks { let bytes = text.now in
        let taken = pick result (some w.new) none in
        ((s : Slot) → last ≡ place_of s
        → taken ≡ masks_in bytes at allowed (tab n (register_at m pc) ++ (s ∷ [])) w.old) }
{
    let mut bits = text::sixteen_at(text, at);
    for r in 0..n {
        if !put_mask(
            &mut *w,
            slots::place(slots::Slot::Register(m, pc, r)),
            bits,
            allowed,
        ) {
            return false;
        }
        bits = mask_after(text, at + 16 * r, bits);
    }
    put_mask(w, last, bits, allowed)
}

// Takes a whole line as the frame at these two numbers: 0, or the number of its refusal.
pub fn take_line(
    t: &[u64; 768],
    text: &[u8],
    at: usize,
    digits: usize,
    k: Part,
    a: usize,
    b: usize,
    w: &mut [u64; 9712],
) -> usize
    requires { (2 ≤ digits) × (at + digits < length text.now) × (all_digits (take digits (drop at text.now)) ≡ true) }
    ensures progress { let p = program_in t.now in
        let line = line_at text.now at digits in
        ((ls : List Line) → (n : ℕ)
        → after_line result ls n w.new ≡ take_whole p (due_at p k a b) line ls n w.old) }
{
    let f = due::frame_of(t, k, a, b);
    if !is_due(text, at, digits, f, a, b) {
        return other_number(text, at);
    }
    if !take_masks(text, at + f.head, f.registers, f.allowed, a, b, f.last, w) {
        return 13;
    }
    0
}
