// The text of the claim that stands in words, put on a page.
ghost use Rattle.std.specs.Prelude.{◌≡◌, ◌<◌, ◌^◌, ℕ, get_or};
ghost use Rattle.page.specs.Digits.{sixteen};
ghost use Rattle.page.specs.OnPage.{PutOn};
ghost use Rattle.page.specs.Page.{Put};
ghost use Rattle.program.specs.Program.{registers};
ghost use Rattle.program.specs.Lists.{tab};
ghost use Rattle.program.specs.Tables.{program_in};
ghost use Rattle.flow.specs.Claim.{register_at};
ghost use Rattle.slots.specs.Layout.{claim_in};
ghost use Rattle.claim.specs.Frames.{frame_at, part_due};
ghost use Rattle.claim.specs.declared.Part.TheVariants.{Address, Field};
ghost use Rattle.wording.specs.ClaimText.{numbers_text, masks_text, frames_text, claim_text};
ghost use Rattle.wording.specs.Inside.{row_due, mask_line};

use claim::{Part, due};
use mask::Mask;
use page::Page;
use slots::Slot;

// Puts the kind and numbers of a frame.
fn put_numbers(page: &mut Page<'_>, numbers: &[usize])
    ensures put { PutOn page.old (numbers_text numbers.now) page.new }
{
    for &n in numbers {
        page.two(n);
    }
}

// Puts the sixteen digits of a mask.
fn put_mask(page: &mut Page<'_>, mask: Mask)
    ensures put { PutOn page.old (sixteen mask.bits) page.new }
{
    page.put(&page::digits(mask.bits));
}

// Puts a frame of one mask.
fn put_line(page: &mut Page<'_>, numbers: &[usize], mask: Mask)
    ensures put { PutOn page.old (mask_line numbers.now mask) page.new }
{
    put_numbers(page, numbers);
    put_mask(page, mask);
    page.byte(b'\n');
}

// The digits of a mask, where those of the mask before it are kept: masks that stand one after another are often the same.
fn digits_after(kept: [u8; 16], before: Mask, mask: Mask) -> [u8; 16]
    ensures digits { kept ≡ sixteen before.bits → result ≡ sixteen mask.bits }
{
    if before == mask {
        return kept;
    }
    page::digits(mask.bits)
}

// Puts the masks of the registers at an address.
fn put_registers(page: &mut Page<'_>, t: &[u64; 768], w: &[u64; 9712], m: usize, pc: usize)
    ensures put { let p = program_in t.now in
        let c = claim_in w.now in
        PutOn page.old (masks_text c (tab (registers p m) (register_at m pc))) page.new }
{
    let count = program::registers(t, m);
    let mut before = Mask::empty();
    let mut digits = page::digits(before.bits);
    for r in 0..count {
        let mask = slots::mask(w, Slot::Register(m, pc, r));
        digits = digits_after(digits, before, mask);
        before = mask;
        page.put(&digits);
    }
}

// Puts the frame of an address.
fn put_address(page: &mut Page<'_>, t: &[u64; 768], w: &[u64; 9712], m: usize, pc: usize)
    ensures put { let p = program_in t.now in
        let c = claim_in w.now in
        PutOn page.old (frames_text c (frame_at p Address m pc)) page.new }
{
    put_numbers(page, &[17, m, pc]);
    put_registers(page, t, w, m, pc);
    put_mask(page, slots::mask(w, Slot::Result(m, pc)));
    page.byte(b'\n');
}

// Puts the frame of a class's field, if the class has it.
fn put_field(page: &mut Page<'_>, t: &[u64; 768], w: &[u64; 9712], k: usize, x: usize)
    ensures put { let p = program_in t.now in
        let c = claim_in w.now in
        PutOn page.old (frames_text c (frame_at p Field k x)) page.new }
{
    if search::has_field(t, k, x) {
        put_line(page, &[18, k, x], slots::mask(w, Slot::Field(k, x)));
    }
}

// Puts the frame at two numbers of a part, if there is one.
fn put_frame(page: &mut Page<'_>, t: &[u64; 768], w: &[u64; 9712], k: Part, a: usize, b: usize)
    ensures put { let p = program_in t.now in
        let c = claim_in w.now in
        PutOn page.old (frames_text c (frame_at p k a b)) page.new }
{
    match k {
        Part::Address => put_address(page, t, w, a, b),
        Part::Field => put_field(page, t, w, a, b),
        Part::Static => put_line(page, &[19, a], slots::mask(w, Slot::Static(a))),
        Part::Returned => put_line(page, &[20, a], slots::mask(w, Slot::Returned(a))),
        Part::Leaving => put_line(page, &[21, a], slots::mask(w, Slot::Leaving(a))),
    }
}

// Puts the frames of a part at its first number.
fn put_row(page: &mut Page<'_>, t: &[u64; 768], w: &[u64; 9712], k: Part, a: usize)
    ensures put { let p = program_in t.now in
        let c = claim_in w.now in
        PutOn page.old (frames_text c (row_due p k a)) page.new }
{
    for b in 0..due::inner(t, k, a) {
        put_frame(page, t, w, k, a, b);
    }
}

// Puts the frames of a part.
fn put_part(page: &mut Page<'_>, t: &[u64; 768], w: &[u64; 9712], k: Part)
    ensures put { let p = program_in t.now in
        let c = claim_in w.now in
        PutOn page.old (frames_text c (part_due p k)) page.new }
{
    for a in 0..due::outer(t, k) {
        put_row(page, t, w, k, a);
    }
}

// Puts the whole text to the front of out, as much as goes in, and answers how many bytes that are.
pub fn put_claim(t: &[u64; 768], w: &[u64; 9712], out: &mut [u8]) -> usize
    ensures put { let p = program_in t.now in
        let c = claim_in w.now in
        Put out.old 0 (claim_text p c) out.new result }
    ensures words { (i : ℕ) → get_or w.now i 0 < 2 ^ 64 }
{
    let mut page = Page { out, at: 0 };
    put_part(&mut page, t, w, Part::Address);
    put_part(&mut page, t, w, Part::Field);
    put_part(&mut page, t, w, Part::Static);
    put_part(&mut page, t, w, Part::Returned);
    put_part(&mut page, t, w, Part::Leaving);
    page.at
}
