// A mask: 64 bits, a set of what a slot of a claim may hold.
#![tactic(auto)]

ghost use Rattle.std.specs.Prelude.{◌≡◌, false, not, ◌&&◌, ◌||◌, ℕ, eqb, ltb};
ghost use Rattle.mask.specs.Mask.{has, is_empty, subset, has_number};

#[derive(Clone, Copy, PartialEq, Eq, Default)]
pub struct Mask {
    pub bits: u64,
}

impl Mask {
    // The mask with no bit.
    #[tactic(auto, using(crate::proofs::Sets::no_bit))]
    pub fn empty() -> Self
        ensures value { result.bits ≡ 0 }
        ensures bits { (k : ℕ) → has result k ≡ false }
    {
        Self { bits: 0 }
    }

    // The mask of one bit; past the last, of none.
    pub fn of(bit: usize) -> Self
        ensures bits { (k : ℕ) → has result k ≡ (eqb k bit && ltb k 64) }
    {
        Self::empty().with(bit)
    }

    // Whether the mask has a bit. No mask has a bit past the last, 63.
    #[tactic(auto, using(crate::proofs::Laws::shifted_has, crate::proofs::Laws::past_has))]
    pub fn has(self, bit: usize) -> bool
        ensures value { result ≡ has self bit }
    {
        bit < 64 && self.bits >> bit & 1 == 1
    }

    // Whether the mask has no bit.
    #[tactic(auto, using(crate::proofs::Laws::empty_bits))]
    pub fn is_empty(self) -> bool
        ensures value { result ≡ is_empty self }
    {
        self.bits == 0
    }

    // The mask with one bit more; with none more past the last.
    #[tactic(auto, using(crate::proofs::Laws::with_has))]
    pub fn with(self, bit: usize) -> Self
        ensures bits { (k : ℕ) → has result k ≡ has self k || (eqb k bit && ltb k 64) }
    {
        if bit < 64 {
            Self {
                bits: self.bits | 1 << bit,
            }
        } else {
            self
        }
    }

    // The bits that are in both masks.
    #[tactic(auto, using(crate::proofs::Laws::common_has))]
    pub fn common(self, other: Self) -> Self
        ensures bits { (k : ℕ) → has result k ≡ has self k && has other k }
    {
        Self {
            bits: self.bits & other.bits,
        }
    }

    // The bits that are in one of the masks, or in both.
    #[tactic(auto, using(crate::proofs::Laws::join_has))]
    pub fn join(self, other: Self) -> Self
        ensures bits { (k : ℕ) → has result k ≡ has self k || has other k }
    {
        Self {
            bits: self.bits | other.bits,
        }
    }

    // The bits that are not in the other mask.
    #[tactic(auto, using(crate::proofs::Laws::without_has))]
    pub fn without(self, other: Self) -> Self
        ensures bits { (k : ℕ) → has result k ≡ has self k && not (has other k) }
    {
        Self {
            bits: self.bits & !other.bits,
        }
    }

    // Whether every bit of the mask is in the other.
    #[tactic(auto, using(crate::proofs::Laws::without_empty))]
    pub fn subset(self, other: Self) -> bool
        ensures value { result ≡ subset self other }
    {
        self.without(other).is_empty()
    }

    // Whether the mask has a number's bit: zero's or that of other numbers.
    #[tactic(auto, unfolding(crate::specs::Mask::has_number))]
    pub fn has_number(self) -> bool
        ensures value { result ≡ has_number self }
    {
        self.has(62) || self.has(63)
    }
}
