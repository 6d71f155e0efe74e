//! Words as lines of hexadecimal digits.
ghost use Rattle.std.specs.Prelude.{◌≡◌, ℕ, ◌++◌, ◌⊎◌, ◌<◌, ◌≤◌, ◌^◌, List, length, slice_index, EachIndex, IfOk, IfErr, OnOk};
ghost use Rattle.std.specs.List.{prefix_len};
ghost use Rattle.hex.specs.Hex.{is_hex_digit};
ghost use Rattle.asm_text.specs.HexLines.{hex_line, hex_lines, hex_word, hex_words_of};

use crate::lines::cut_line;
use hex::{FromHex, encode_to_slice};
use std::alloc::{AllocError, AllocFailed, Global};
use thiserror::Error;
use vx_base::{Memory, Pos, Text, WordList};

/// How many words a text has at most.
const MOST_WORDS: u32 = 65536;

/// Why a text of hexadecimal lines is refused.
#[derive(Clone, Copy, Debug, PartialEq, Eq, Error)]
pub enum HexFault {
    /// The first byte that cannot go on; the end of a line or of the text counts as a byte behind its last.
    #[error("{0}: expected a line of eight hexadecimal digits")]
    Syntax(Pos),
    /// The first byte of the line of a word past the 65,536th, and the number of words up to that one.
    #[error("{pos}: word {words} is one more than an image may have")]
    TooLarge { pos: Pos, words: u32 },
    /// Memory ran out.
    #[error("memory ran out")]
    Memory,
}

impl From<AllocError> for HexFault {
    ghost use Rattle.std.specs.Prelude.{◌≡◌};
    ghost use Rattle.asm_text.specs.declared.hexadecimal.HexFault.TheVariants as fault;

    ghost from_gives = { λ _ e. e ≡ fault.Memory };

    fn from(_error: AllocError) -> HexFault {
        HexFault::Memory
    }
}

impl<T: Drop> From<AllocFailed<T>> for HexFault {
    ghost use Rattle.std.specs.Prelude.{◌≡◌};
    ghost use Rattle.asm_text.specs.declared.hexadecimal.HexFault.TheVariants as fault;

    ghost from_gives = { λ _ e. e ≡ fault.Memory };

    fn from(_error: AllocFailed<T>) -> HexFault {
        HexFault::Memory
    }
}

/// Puts the line of a word, eight digits and a line feed, behind a text.
pub fn push_hex_line(text: &mut Vec<u8>, word: u32) -> Result<(), AllocError>
    ensures { OnOk result (text.new.items ≡ text.old.items ++ hex_line word) }
{
    let mut digits = [0; 8];
    let _ = encode_to_slice(word.to_be_bytes(), &mut digits);
    text.extend_from_slice(&digits)?;
    text.extend_from_slice(b"\n")
}

/// The text of some words: for each a line of eight lower-case digits.
pub fn hex_text(alloc: Global, words: &[u32]) -> Result<Text, Memory>
    ensures { IfOk result (λ text. text ≡ hex_lines words.now) }
{
    let mut items = Vec::new(alloc);
    for word in words {
        push_hex_line(&mut items, *word)?;
    }
    Ok(Text { items })
}

/// How many bytes at the front of a line are digits.
fn digits_at(line: &[u8]) -> usize
    ensures { result ≡ prefix_len is_hex_digit line.now }
{
    line.iter()
        .take_while(|byte| byte.is_ascii_hexdigit())
        .count()
}

/// The word of the line with this number.
#[tactic(auto, unfolding(crate::specs::HexLines::hex_word))]
fn word_of_line(number: u32, line: &[u8]) -> Result<u32, HexFault>
    ensures { result ≡ hex_word number line.now }
{
    match <[u8; 4] as FromHex>::from_hex(line) {
        Ok(bytes) => Ok(u32::from_be_bytes(bytes)),
        Err(_) => Err(HexFault::Syntax(Pos {
            line: number,
            col: digits_at(line).min(8) as u32 + 1,
        })),
    }
}

/// What is written is read back.
pub fn reads_back()
    ensures { (words : List ℕ) → length words ≤ 65536 → EachIndex words (λ k. slice_index words k < 2 ^ 32)
        → hex_words_of (hex_lines words) ≡ Ok words }
{}

/// The words of a text of hexadecimal lines. Digits of either case are read, and the last line feed may be missing.
///
/// A fault is the first of the text: of the lines in order, and of one line first `Syntax` and then `TooLarge`.
pub fn hex_words(alloc: Global, text: &[u8]) -> Result<WordList, HexFault>
    ensures words { IfOk result (λ words. hex_words_of text.now ≡ Ok words) }
    ensures fault { IfErr result (λ fault. (fault ≡ HexFault.Memory) ⊎ (hex_words_of text.now ≡ Err fault)) }
{
    let mut items = Vec::new(alloc);
    let mut rest = text;
    let mut number = 1;
    while !rest.is_empty() {
        let (line, behind) = cut_line(rest);
        let word = word_of_line(number, line)?;
        if number > MOST_WORDS {
            return Err(HexFault::TooLarge {
                pos: Pos {
                    line: number,
                    col: 1,
                },
                words: number,
            });
        }
        items.push(word)?;
        rest = behind;
        number += 1;
    }
    Ok(WordList { items })
}
