// How long the text of a claim is: it is known before the claim is.
ghost use Rattle.std.specs.Prelude.{◌≡◌, ◌*◌, ◌≤◌, length};
ghost use Rattle.program.specs.Tables.{program_in};
ghost use Rattle.flow.specs.Claim.{Claim};
ghost use Rattle.claim.specs.Frames.{frame_at, part_due};
ghost use Rattle.wording.specs.ClaimText.{frames_text, claim_text};
ghost use Rattle.wording.specs.Inside.{row_due};

use claim::{Part, due};

// How many bytes the frame at two numbers takes; 0 where there is none.
fn frame_size(t: &[u64; 768], k: Part, a: usize, b: usize) -> usize
    ensures value { (c : Claim) → result ≡ length (frames_text c (frame_at (program_in t.now) k a b)) }
    ensures range { result ≤ 4103 }
{
    if due::present(t, k, a, b) {
        let f = due::frame_of(t, k, a, b);
        return f.head + 16 * (f.registers + 1) + 1;
    }
    0
}

// How many the frames of a part take at its first number.
fn row_size(t: &[u64; 768], k: Part, a: usize) -> usize
    ensures value { (c : Claim) → result ≡ length (frames_text c (row_due (program_in t.now) k a)) }
    ensures range { result ≤ 131296 }
{
    let mut size = 0;
    for b in 0..due::inner(t, k, a) {
        size += frame_size(t, k, a, b);
    }
    size
}

// How many the frames of a part take.
fn part_size(t: &[u64; 768], k: Part) -> usize
    ensures value { (c : Claim) → result ≡ length (frames_text c (part_due (program_in t.now) k)) }
    ensures range { result ≤ 7877760 }
{
    let mut size = 0;
    for a in 0..due::outer(t, k) {
        size += row_size(t, k, a);
    }
    size
}

// How many the text of a claim takes, whatever its masks.
pub fn claim_size(t: &[u64; 768]) -> usize
    ensures value { (c : Claim) → result ≡ length (claim_text (program_in t.now) c) }
{
    let addresses = part_size(t, Part::Address);
    let fields = part_size(t, Part::Field);
    let statics = part_size(t, Part::Static);
    let returned = part_size(t, Part::Returned);
    let leaving = part_size(t, Part::Leaving);
    addresses + fields + statics + returned + leaving
}
