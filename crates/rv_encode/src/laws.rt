//! The law of encoding and decoding.
ghost use Rattle.std.specs.Prelude.{◌≡◌, ℕ, Some};
ghost use Rattle.vx_isa.specs.Rows.{row_of};
ghost use Rattle.vx_isa.specs.Words.{word_of, Fits};
ghost use Rattle.vx_isa.specs.declared.instr.Instr as instr;

use crate::{decode, encode};
use vx_isa::Instr;

/// What `decode` computes of what `encode` computes is the instruction, and what `encode` computes of what `decode` found is
/// the word.
pub fn reads_back()
    ensures back { (i : instr.Instr) → Fits i → row_of (word_of i) ≡ Some i }
    ensures forth { (w : ℕ) (i : instr.Instr) → row_of w ≡ Some i → word_of i ≡ w }
{}

/// An instruction whose operands fit, through its word: the same again.
#[tactic(auto, using(crate::proofs::DecodeLaws::word_is_read))]
pub fn read_back(i: Instr) -> Option<Instr>
    requires { Fits i }
    ensures { result ≡ Some i }
{
    decode(encode(i))
}
