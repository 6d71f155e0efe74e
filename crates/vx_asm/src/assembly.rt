//! The second pass: the words of the statements, each label at its place.
ghost use Rattle.std.specs.Prelude.{◌≡◌, ◌⊎◌, ◌≤◌, ◌<◌, length, Ok, Err, IfOk, IfErr};
ghost use Rattle.asm_text.specs.AsmTexts as spec;
ghost use Rattle.asm_text.specs.AsmTexts.{assembled};
ghost use Rattle.asm_text.specs.Mnemonics.{instr_of};
ghost use Rattle.vx_asm.specs.Listing.{looked_up, word_of_listed, words_of_listed};
ghost use Rattle.asm_text.specs.declared.statements.AsmFault.TheVariants as fault;

use crate::labels::Labels;
use crate::listing::{Listed, Listing, list_text, word_of_statement};
use asm_text::{AsmFault, Statement};
use std::alloc::Global;
use vx_base::{Pos, WordList};

/// The distance in bytes from one word to another, as a word.
fn distance(from: u32, to: u32) -> u32
    requires { from ≤ 65536 }
    ensures { result ≡ spec.distance from to }
{
    to.wrapping_mul(4).wrapping_sub(from.wrapping_mul(4))
}

/// Whether a statement's operands fit its instruction.
fn fits(statement: Statement) -> bool
    ensures { result ≡ spec.fits_some (instr_of statement.mnemonic statement.operands) }
{
    match statement.mnemonic.instr(statement.operands) {
        Some(instr) => instr.fits(),
        None => true,
    }
}

/// The word of a statement whose label stands at `place`. The statement is the word with number `word`.
fn look_up(pos: Pos, statement: Statement, word: u32, place: Option<u32>) -> Result<u32, AsmFault>
    requires { word ≤ 65536 }
    ensures { result ≡ looked_up pos statement word place }
{
    let Some(place) = place else {
        return Err(AsmFault::NoLabel(pos));
    };
    let whole = Statement {
        operands: statement.operands.with(distance(word, place)),
        ..statement
    };
    if !fits(whole) {
        return Err(AsmFault::Range(pos));
    }
    Ok(word_of_statement(whole))
}

/// The word with number `word`.
fn word_of(listed: Listed, labels: &Labels, word: u32) -> Result<u32, AsmFault>
    requires { word ≤ 65536 }
    ensures { result ≡ word_of_listed labels.now word listed.entry }
{
    match listed {
        Listed::Word(found) => Ok(found),
        Listed::Waiting {
            name,
            pos,
            statement,
        } => look_up(pos, statement, word, labels.place_of(name)),
    }
}

/// The words of all statements.
fn resolve(alloc: Global, listing: &Listing) -> Result<WordList, AsmFault>
    requires { length listing.now.statements.items ≤ 65536 }
    ensures words { IfOk result (λ words. words_of_listed listing.now.labels 0 listing.now.statements.items ≡ Ok words) }
    ensures fault { IfErr result (λ f. (f ≡ fault.Memory) ⊎ (words_of_listed listing.now.labels 0 listing.now.statements.items ≡ Err f)) }
{
    let mut items = Vec::new(alloc);
    for listed in &listing.statements {
        let number = items.len() as u32;
        let word = word_of(*listed, &listing.labels, number)?;
        items.push(word)?;
    }
    Ok(WordList { items })
}

/// The words of a text of assembly of at most 2,097,152 bytes.
///
/// A fault is the first of the text: of the lines in order, and of one line first `Syntax`, then `Range` of a number,
/// `LabelTwice` and `TooLarge`; and only where no line has one of these, of the lines in order `NoLabel`, and `Range` of a
/// label that is too far.
pub fn assemble(alloc: Global, text: &[u8]) -> Result<WordList, AsmFault>
    requires { length text.now ≤ 2097152 }
    ensures words { IfOk result (λ words. assembled text.now ≡ Ok words) }
    ensures fault { IfErr result (λ f. (f ≡ fault.Memory) ⊎ (assembled text.now ≡ Err f)) }
{
    let listing = list_text(alloc, text)?;
    resolve(alloc, &listing)
}
