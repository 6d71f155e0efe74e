//! Statements and whole lines.
ghost use Rattle.std.specs.Prelude.{◌≡◌, ◌^◌, ◌<◌, nat_eq, length};
ghost use Rattle.vx_isa.specs.Words.{is_csr};
ghost use Rattle.std.specs.List.{common_prefix_len};
ghost use Rattle.asm_text.specs.AsmLines as spec;
ghost use Rattle.asm_text.specs.AsmLines.{Says};
ghost use Rattle.asm_text.specs.Mnemonics.{all_mnemonics};

use crate::parts::{
    begins_name, byte_at, bytes_from, front_of, name_len, number_at, past_blanks, register_at,
};
use asm_text::mnemonics::ALL;
use asm_text::{Field, Line, Mnemonic, Number, Operands, Part, Span, Statement};

fn is_below(limit: u64, number: Number) -> bool
    ensures { result ≡ spec.is_below limit number }
{
    if number.minus {
        number.size == 0
    } else {
        number.size < limit
    }
}

fn is_signed_below(limit: u64, number: Number) -> bool
    ensures { result ≡ spec.is_signed_below limit number }
{
    if number.minus {
        number.size <= limit
    } else {
        number.size < limit
    }
}

fn is_csr(number: u64) -> bool
    ensures { result ≡ is_csr number }
{
    number == 0xcc0 || number == 0xcc1 || number == 0xcc2 || number == 0xcc4
}

/// Whether a number fits its field.
fn fits_field(field: Field, number: Number) -> bool
    ensures { result ≡ spec.fits_field field number }
{
    match field {
        Field::Immediate => is_signed_below(2048, number),
        Field::Amount => is_below(32, number),
        Field::Upper => is_below(0x10_0000, number),
        Field::FenceSet => is_below(16, number),
        Field::Csr => !number.minus && is_csr(number.size),
        Field::Word => is_below(0x1_0000_0000, number),
        Field::Branch => is_signed_below(4096, number) && number.size % 2 == 0,
        Field::Jump => is_signed_below(0x10_0000, number) && number.size % 2 == 0,
    }
}

/// A number that fits a field, as a word of 32 bits.
fn word_of_number(number: Number) -> u32
    requires { number.size < 2 ^ 32 }
    ensures { result ≡ spec.word_of_number number }
{
    let size = number.size as u32;
    if number.minus {
        size.wrapping_neg()
    } else {
        size
    }
}

/// The statement with one operand more.
fn with_word(statement: Statement, word: u32) -> Statement
    ensures { result ≡ spec.with_word statement word }
{
    Statement {
        operands: statement.operands.with(word),
        ..statement
    }
}

/// The statement with a number for a field, from which on the line has `left` bytes.
fn with_number(field: Field, left: usize, statement: Statement, number: Number) -> Statement
    ensures { result ≡ spec.with_number field left statement number }
{
    if fits_field(field, number) {
        return with_word(statement, word_of_number(number));
    }
    Statement {
        misfit: Some(statement.misfit.unwrap_or(left)),
        ..statement
    }
}

fn field_at(field: Field, statement: Statement, bytes: &[u8]) -> Result<(Statement, &[u8]), usize>
    ensures { Says result (spec.field_at field statement bytes.now) }
{
    let (number, rest) = number_at(bytes)?;
    Ok((with_number(field, bytes.len(), statement, number), rest))
}

fn mark_at(mark: u8, statement: Statement, bytes: &[u8]) -> Result<(Statement, &[u8]), usize>
    ensures { Says result (spec.mark_at mark statement bytes.now) }
{
    if byte_at(bytes, 0) != mark {
        return Err(bytes.len());
    }
    Ok((statement, bytes_from(bytes, 1)))
}

fn place_at(field: Field, statement: Statement, bytes: &[u8]) -> Result<(Statement, &[u8]), usize>
    ensures { Says result (spec.place_at field statement bytes.now) }
{
    if !begins_name(byte_at(bytes, 0)) {
        return field_at(field, statement, bytes);
    }
    let len = name_len(bytes);
    let target = Span {
        left: bytes.len(),
        len,
    };
    let named = Statement {
        target: Some(target),
        ..statement
    };
    Ok((named, bytes_from(bytes, len)))
}

/// One part of a statement.
#[tactic(auto, unfolding(asm_text::specs::AsmLines::part_at))]
fn part_at(part: Part, statement: Statement, bytes: &[u8]) -> Result<(Statement, &[u8]), usize>
    ensures { Says result (spec.part_at part statement bytes.now) }
{
    match part {
        Part::Register => {
            let (register, rest) = register_at(bytes)?;
            Ok((with_word(statement, register), rest))
        }
        Part::Number(field) => field_at(field, statement, bytes),
        Part::Place(field) => place_at(field, statement, bytes),
        Part::Comma => mark_at(b',', statement, bytes),
        Part::Open => mark_at(b'(', statement, bytes),
        Part::Close => mark_at(b')', statement, bytes),
    }
}

/// A statement before its operands are read.
fn bare_statement(mnemonic: Mnemonic) -> Statement
    ensures { result ≡ spec.bare mnemonic }
{
    Statement {
        mnemonic,
        operands: Operands {
            first: 0,
            second: 0,
            third: 0,
        },
        misfit: None,
        target: None,
    }
}

/// What stands behind a mnemonic.
fn operands_at(mnemonic: Mnemonic, bytes: &[u8]) -> Result<(Statement, &[u8]), usize>
    ensures { Says result (spec.operands_at mnemonic bytes.now) }
{
    let mut statement = bare_statement(mnemonic);
    let mut rest = bytes;
    let parts = mnemonic.form().parts();
    for part in parts {
        let (more, behind) = part_at(*part, statement, past_blanks(rest))?;
        statement = more;
        rest = behind;
    }
    Ok((statement, rest))
}

/// The mnemonic that a word is.
#[tactic(auto, unfolding(asm_text::specs::AsmLines::mnemonic_named))]
fn mnemonic_named(word: &[u8]) -> Option<Mnemonic>
    ensures { result ≡ spec.mnemonic_named word.now }
{
    ALL.iter().copied().find(|mnemonic| mnemonic.name() == word)
}

/// How many bytes two texts begin with in common.
fn common_len(a: &[u8], b: &[u8]) -> usize
    ensures { result ≡ common_prefix_len nat_eq a.now b.now }
{
    let least = a.len().min(b.len());
    for place in 0..least {
        if a[place] != b[place] {
            return place;
        }
    }
    least
}

/// How many bytes of a word begin a mnemonic, at most.
fn known_bytes(word: &[u8]) -> usize
    ensures { result ≡ spec.known_bytes word.now all_mnemonics }
{
    let mut most = 0;
    for mnemonic in &ALL {
        most = common_len(mnemonic.name(), word).max(most);
    }
    most
}

/// How many bytes the word at the front has.
fn word_len(bytes: &[u8]) -> usize
    ensures { result ≡ spec.word_len bytes.now }
{
    if byte_at(bytes, 0) == b'.' {
        name_len(bytes_from(bytes, 1)) + 1
    } else {
        name_len(bytes)
    }
}

/// A statement: the mnemonic at the front, and its operands.
#[tactic(auto, unfolding(asm_text::specs::AsmLines::statement_at))]
fn statement_at(bytes: &[u8]) -> Result<(Statement, &[u8]), usize>
    ensures { Says result (spec.statement_at bytes.now) }
{
    let len = word_len(bytes);
    let word = front_of(bytes, len);
    match mnemonic_named(word) {
        Some(mnemonic) => operands_at(mnemonic, bytes_from(bytes, len)),
        None => Err(bytes.len().saturating_sub(known_bytes(word))),
    }
}

/// Whether nothing but a comment is left.
fn ends(bytes: &[u8]) -> bool
    ensures { result ≡ spec.ends bytes.now }
{
    bytes.is_empty() || byte_at(bytes, 0) == b'#'
}

/// The line with all that was read, if it ends here.
#[tactic(auto, unfolding(asm_text::specs::AsmLines::ended))]
fn finish_line(
    label: Option<Span>,
    statement: Option<Statement>,
    bytes: &[u8],
) -> Result<Line, usize>
    ensures { result ≡ spec.ended label statement bytes.now }
{
    let behind = past_blanks(bytes);
    if !ends(behind) {
        return Err(behind.len());
    }
    Ok(Line { label, statement })
}

/// What may stand behind a label, or where no name begins the line.
#[tactic(auto, unfolding(asm_text::specs::AsmLines::rest_of_line))]
fn rest_of_line(label: Option<Span>, bytes: &[u8]) -> Result<Line, usize>
    ensures { result ≡ spec.rest_of_line label bytes.now }
{
    let start = past_blanks(bytes);
    if ends(start) {
        return Ok(Line {
            label,
            statement: None,
        });
    }
    let (statement, rest) = statement_at(start)?;
    finish_line(label, Some(statement), rest)
}

/// A line that begins with a name: a label before `:`, or a mnemonic.
#[tactic(auto, unfolding(asm_text::specs::AsmLines::named_line))]
fn named_line(bytes: &[u8]) -> Result<Line, usize>
    ensures { result ≡ spec.named_line bytes.now }
{
    let len = name_len(bytes);
    let rest = bytes_from(bytes, len);
    let behind = past_blanks(rest);
    if byte_at(behind, 0) == b':' {
        let label = Span {
            left: bytes.len(),
            len,
        };
        return rest_of_line(Some(label), bytes_from(behind, 1));
    }
    let Some(mnemonic) = mnemonic_named(front_of(bytes, len)) else {
        return Err(behind.len());
    };
    let (statement, rest) = operands_at(mnemonic, rest)?;
    finish_line(None, Some(statement), rest)
}

/// What a line says, or how many bytes are left from the first one on that no line goes on with.
#[tactic(auto, unfolding(asm_text::specs::AsmLines::line_of))]
pub fn line_of(line: &[u8]) -> Result<Line, usize>
    ensures { result ≡ spec.line_of line.now }
{
    let start = past_blanks(line);
    if begins_name(byte_at(start, 0)) {
        named_line(start)
    } else {
        rest_of_line(None, line)
    }
}
