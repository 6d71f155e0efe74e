//! The laws that tie a word to the row of the table that it spells.
ghost use Rattle.std.specs.Prelude.{◌≡◌, ℕ, ◌^◌, ◌<◌, None, Some};
ghost use Rattle.vx_isa.specs.Rows.{row_of};
ghost use Rattle.vx_isa.specs.Words.{word_of, Fits, Spells};
ghost use Rattle.vx_isa.specs.declared.instr.Instr as instr;

/// A word spells one instruction at most, and the row that is looked up for it by its fields is this instruction. So a word
/// for which no row is found spells none, and the word of every instruction whose operands fit is found again.
pub fn words_tell_rows()
    ensures found { (w : ℕ) (i : instr.Instr) → row_of w ≡ Some i → Spells w i }
    ensures spelled { (w : ℕ) (i : instr.Instr) → Spells w i → row_of w ≡ Some i }
    ensures none { (w : ℕ) → row_of w ≡ None → (i : instr.Instr) → ¬ Spells w i }
    ensures one { (w : ℕ) (i j : instr.Instr) → Spells w i → Spells w j → i ≡ j }
    ensures word { (w : ℕ) (i : instr.Instr) → Spells w i → w < 2 ^ 32 }
{}
