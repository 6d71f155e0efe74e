//! Sets of lanes as the bits of a word: lane k is in the set where bit k is 1.
ghost use Rattle.std.specs.Prelude.{◌≡◌, ◌+◌, ◌^◌, ◌<◌, ◌≤◌, ◌↔◌, ℕ, IfSome, MatchOption};
ghost use Rattle.std.specs.Int.{IsBitSet};
ghost use Rattle.vx_base.specs.Masks.{IsLeastBit};

/// The set of the lanes below `lanes`, of which there are 1 to 32.
#[tactic(auto, using(crate::proofs::MaskLaws::ones_of_shift, crate::proofs::MaskLaws::bits_of_ones))]
pub fn lanes_mask(lanes: u32) -> u32
    requires some { 1 ≤ lanes }
    requires word { lanes ≤ 32 }
    ensures ones { result + 1 ≡ 2 ^ lanes }
    ensures bits { (k : ℕ) → IsBitSet result k ↔ (k < lanes) }
{
    u32::MAX >> (32 - lanes)
}

/// The least lane of a set, and None where the set is empty.
pub fn least(mask: u32) -> Option<u32>
    ensures least { MatchOption result (mask ≡ 0) (λ k. IsLeastBit mask k) }
    ensures lane { IfSome result (λ k. k < 32) }
{
    if mask == 0 {
        None
    } else {
        Some(mask.trailing_zeros())
    }
}
