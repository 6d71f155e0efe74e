//! Bit fields of words.
ghost use Rattle.std.specs.Prelude.{◌≡◌, ◌+◌, ◌*◌, ◌^◌, ◌<◌, ◌≤◌};
ghost use Rattle.vx_isa.specs.Rows.{sign_extended};
ghost use Rattle.vx_isa.specs.Words.{bits};

/// The bits of a word from `high` down to `low`, as a number.
#[inline]
#[tactic(auto, using(crate::proofs::BitLaws::masked_bits))]
pub(crate) fn bits(word: u32, high: u32, low: u32) -> u32
    requires ordered { low ≤ high }
    requires word { high < 32 }
    ensures { result ≡ bits high low word }
{
    (word >> low) & (u32::MAX >> (31 - (high - low)))
}

/// A number with another one behind it, which has so many bits.
#[inline]
#[tactic(auto, using(crate::proofs::BitLaws::joined_bits))]
pub(crate) fn join(high: u32, low: u32, width: u32) -> u32
    requires narrow { width < 32 }
    requires low { low < 2 ^ width }
    requires word { high * 2 ^ width < 2 ^ 32 }
    ensures { result ≡ high * 2 ^ width + low }
{
    high << width | low
}

/// A number of so many bits as a 32-bit word, its sign extended.
#[inline]
#[tactic(auto, using(crate::proofs::BitLaws::sign_clear, crate::proofs::BitLaws::sign_set))]
pub(crate) fn extend_sign(n: u32, width: u32) -> u32
    requires some { 1 ≤ width }
    requires narrow { width < 32 }
    requires fits { n < 2 ^ width }
    ensures { result ≡ sign_extended width n }
{
    if n >> (width - 1) == 0 {
        n
    } else {
        u32::MAX << width | n
    }
}
