//! The first pass over a text: its labels, and its statements in order, of which some wait for the place of a label.
ghost use Rattle.std.specs.Prelude.{◌≡◌, ◌⊎◌, ◌≤◌, ℕ, [], length, None, Ok, Err, OnOk, IfOk, IfErr, IfSome};
ghost use Rattle.asm_text.specs.Lines.{lines};
ghost use Rattle.asm_text.specs.AsmTexts as spec;
ghost use Rattle.vx_asm.specs.Labels.{Labels as Table};
ghost use Rattle.vx_asm.specs.Listing.{and_then, fits_statement, line_read, word_of_listed, words_of_listed};
ghost use Rattle.asm_text.specs.declared.statements.AsmFault.TheVariants as fault;

use crate::labels::Labels;
use crate::lines::line_of;
use crate::parts::{bytes_from, front_of};
use asm_text::{AsmFault, Line, Span, Statement, cut_line};
use rv_encode::encode;
use std::alloc::Global;
use vx_base::Pos;

/// How many words a text has at most.
const MOST_WORDS: u32 = 65536;

/// A statement of a text.
#[derive(Clone, Copy, Debug)]
pub enum Listed<'a> {
    /// Its word.
    Word(u32),
    /// A statement with a label that may stand in a later line.
    Waiting {
        /// The label.
        name: &'a [u8],
        /// Where the label's first byte stands.
        pos: Pos,
        /// The statement, whose last operand is the label's place.
        statement: Statement,
    },
}

/// The labels and the statements of a text, both in order.
#[derive(Drop)]
pub struct Listing<'a> {
    /// The labels.
    pub labels: Labels<'a>,
    /// The statements.
    pub statements: Vec<Listed<'a>>,
}

/// The position of the byte of a line from which on it has `left` bytes.
fn pos_at(number: u32, line: &[u8], left: usize) -> Pos
    requires { length line.now ≤ 2097152 }
    ensures { result ≡ spec.pos_at number line.now left }
{
    Pos {
        line: number,
        col: line.len().saturating_sub(left) as u32 + 1,
    }
}

/// A piece of a line.
fn text_of(line: &[u8], span: Span) -> &[u8]
    ensures { result.now ≡ spec.text_of line.now span }
{
    front_of(
        bytes_from(line, line.len().saturating_sub(span.left)),
        span.len,
    )
}

/// What the line with this number says.
fn line_or_fault(number: u32, line: &[u8]) -> Result<Line, AsmFault>
    requires { length line.now ≤ 2097152 }
    ensures { result ≡ spec.said_in number line.now }
{
    match line_of(line) {
        Ok(said) => Ok(said),
        Err(left) => Err(AsmFault::Syntax(pos_at(number, line, left))),
    }
}

/// Refuses a number that does not fit its field.
fn check_numbers(number: u32, line: &[u8], statement: Option<Statement>) -> Result<(), AsmFault>
    requires { length line.now ≤ 2097152 }
    ensures { result ≡ spec.fitting number line.now (spec.misfit_of statement) }
{
    let Some(read) = statement else {
        return Ok(());
    };
    match read.misfit {
        Some(left) => Err(AsmFault::Range(pos_at(number, line, left))),
        None => Ok(()),
    }
}

/// What the line with this number says, where each of its numbers fits.
fn read_line(number: u32, line: &[u8]) -> Result<Line, AsmFault>
    requires { length line.now ≤ 2097152 }
    ensures said { result ≡ line_read number line.now }
    ensures fits { IfOk result (λ said. IfSome said.statement (λ s. s.target ≡ None → fits_statement s)) }
{
    let said = line_or_fault(number, line)?;
    check_numbers(number, line, said.statement)?;
    Ok(said)
}

/// Puts the label of a line, which stands before the word with number `word`, behind the labels.
fn note_label<'a>(
    labels: &mut Labels<'a>,
    number: u32,
    line: &'a [u8],
    word: u32,
    label: Option<Span>,
) -> Result<(), AsmFault>
    requires { length line.now ≤ 2097152 }
    ensures noted { OnOk result (spec.with_label number line.now word labels.old label ≡ Ok labels.new) }
    ensures fault { IfErr result (λ f. (f ≡ fault.Memory) ⊎ (spec.with_label number line.now word labels.old label ≡ Err f)) }
{
    let Some(span) = label else {
        return Ok(());
    };
    let name = text_of(line, span);
    if labels.place_of(name).is_some() {
        return Err(AsmFault::LabelTwice(pos_at(number, line, span.left)));
    }
    labels.add(name, word)
}

/// The word of a statement without a label.
pub fn word_of_statement(statement: Statement) -> u32
    requires { fits_statement statement }
    ensures { result ≡ spec.word_of_statement statement }
{
    match statement.mnemonic.instr(statement.operands) {
        Some(instr) => encode(instr),
        None => statement.operands.third,
    }
}

/// A statement of the line with this number.
fn list_statement<'a>(number: u32, line: &'a [u8], statement: Statement) -> Listed<'a>
    requires short { length line.now ≤ 2097152 }
    requires fits { statement.target ≡ None → fits_statement statement }
    ensures { (labels : Table) (word : ℕ) → word_of_listed labels word result ≡ spec.resolved number line.now labels word statement statement.target }
{
    match statement.target {
        Some(span) => Listed::Waiting {
            name: text_of(line, span),
            pos: pos_at(number, line, span.left),
            statement,
        },
        None => Listed::Word(word_of_statement(statement)),
    }
}

/// Puts the statement of a line behind the others.
fn note_statement<'a>(
    statements: &mut Vec<Listed<'a>>,
    number: u32,
    line: &'a [u8],
    statement: Option<Statement>,
) -> Result<(), AsmFault>
    requires short { length line.now ≤ 2097152 }
    requires room { length statements.old.items ≤ 65536 }
    requires fits { IfSome statement (λ s. s.target ≡ None → fits_statement s) }
    ensures counted { OnOk result (spec.with_word_of number (length statements.old.items) statement ≡ Ok (length statements.new.items)) }
    ensures room { OnOk result (length statements.new.items ≤ 65536) }
    ensures words { OnOk result ((labels : Table) → words_of_listed labels 0 statements.new.items
        ≡ and_then (words_of_listed labels 0 statements.old.items) (spec.words_of_statement number line.now labels (length statements.old.items) statement)) }
    ensures fault { IfErr result (λ f. (f ≡ fault.Memory) ⊎ (spec.with_word_of number (length statements.old.items) statement ≡ Err f)) }
{
    let Some(read) = statement else {
        return Ok(());
    };
    if statements.len() == MOST_WORDS as usize {
        return Err(AsmFault::TooLarge {
            pos: Pos {
                line: number,
                col: 1,
            },
            words: MOST_WORDS + 1,
        });
    }
    statements.push(list_statement(number, line, read))?;
    Ok(())
}

/// Puts the label and the statement of a line behind the others.
fn list_line<'a>(listing: &mut Listing<'a>, number: u32, line: &'a [u8]) -> Result<(), AsmFault>
    requires short { length line.now ≤ 2097152 }
    requires room { length listing.old.statements.items ≤ 65536 }
    ensures counted { OnOk result (spec.counted number line.now (length listing.old.statements.items) listing.old.labels
        ≡ Ok (length listing.new.statements.items, listing.new.labels)) }
    ensures room { OnOk result (length listing.new.statements.items ≤ 65536) }
    ensures words { OnOk result ((labels : Table) → words_of_listed labels 0 listing.new.statements.items
        ≡ and_then (words_of_listed labels 0 listing.old.statements.items) (spec.words_of_line number line.now labels (length listing.old.statements.items))) }
    ensures fault { IfErr result (λ f. (f ≡ fault.Memory) ⊎ (spec.counted number line.now (length listing.old.statements.items) listing.old.labels ≡ Err f)) }
{
    let said = read_line(number, line)?;
    let word = listing.statements.len() as u32;
    note_label(&mut listing.labels, number, line, word, said.label)?;
    note_statement(&mut listing.statements, number, line, said.statement)?;
    Ok(())
}

/// The labels and the statements of a text.
pub fn list_text(alloc: Global, text: &[u8]) -> Result<Listing, AsmFault>
    requires { length text.now ≤ 2097152 }
    ensures labels { IfOk result (λ l. spec.labels_from 1 (lines text.now) 0 [] ≡ Ok l.labels) }
    ensures room { IfOk result (λ l. length l.statements.items ≤ 65536) }
    ensures words { IfOk result (λ l. (labels : Table) → spec.words_from 1 (lines text.now) labels 0 ≡ words_of_listed labels 0 l.statements.items) }
    ensures fault { IfErr result (λ f. (f ≡ fault.Memory) ⊎ (spec.labels_from 1 (lines text.now) 0 [] ≡ Err f)) }
{
    let mut listing = Listing {
        labels: Labels::new(alloc),
        statements: Vec::new(alloc),
    };
    let mut rest = text;
    let mut number = 1;
    while !rest.is_empty() {
        let (line, behind) = cut_line(rest);
        list_line(&mut listing, number, line)?;
        rest = behind;
        number += 1;
    }
    Ok(listing)
}
