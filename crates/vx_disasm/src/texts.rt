//! The text of a word, and of all words.
ghost use Rattle.std.specs.Prelude.{◌≡◌, ◌++◌, ◌≤◌, length, Ok, IfOk, OnOk, string_bytes};
ghost use Rattle.asm_text.specs.AsmTexts.{assembled};
ghost use Rattle.asm_text.specs.HexLines.{most_words};
ghost use Rattle.vx_disasm.specs.Texts.{instr_text, line_text, lines_text, operands_text};

use asm_text::{Form, Mnemonic, Operands, push_hex_line};
use rv_encode::decode;
use std::alloc::{AllocError, Global};
use vx_base::{Memory, Text};
use vx_isa::Instr;

/// What stands behind a mnemonic of this form.
fn format_operands(alloc: Global, form: Form, operands: Operands) -> Result<String, AllocError>
    ensures { IfOk result (λ text. string_bytes text ≡ operands_text form operands) }
{
    let Operands {
        first,
        second,
        third,
    } = operands;
    let offset = second.cast_signed();
    let distance = third.cast_signed();
    match form {
        Form::ThreeRegisters => format!(in alloc; " x{first}, x{second}, x{third}"),
        Form::Immediate | Form::Branch => format!(in alloc; " x{first}, x{second}, {distance}"),
        Form::Shift => format!(in alloc; " x{first}, x{second}, {third}"),
        Form::Memory => format!(in alloc; " x{first}, {offset}(x{third})"),
        Form::Upper | Form::Csr => format!(in alloc; " x{second}, 0x{third:x}"),
        Form::Jump => format!(in alloc; " x{second}, {distance}"),
        Form::Fence => format!(in alloc; " {second}, {third}"),
        Form::OneRegister => format!(in alloc; " x{third}"),
        Form::TwoRegisters => format!(in alloc; " x{second}, x{third}"),
        Form::Bare => format!(in alloc; ""),
        Form::Word => format!(in alloc; " 0x{third:x}"),
    }
}

/// Puts the line of an instruction behind a text.
fn push_instr(alloc: Global, text: &mut Vec<u8>, instr: Instr) -> Result<(), AllocError>
    ensures { OnOk result (text.new.items ≡ text.old.items ++ instr_text instr) }
{
    let mnemonic = Mnemonic::of(instr);
    let operands = format_operands(alloc, mnemonic.form(), Operands::of(instr))?;
    text.extend_from_slice(mnemonic.name())?;
    text.extend_from_slice(operands.as_bytes())?;
    text.extend_from_slice(b"\n")
}

/// Puts the line of a word behind a text.
fn push_word(alloc: Global, text: &mut Vec<u8>, word: u32) -> Result<(), AllocError>
    ensures { OnOk result (text.new.items ≡ text.old.items ++ line_text word) }
{
    match decode(word) {
        Some(instr) => push_instr(alloc, text, instr),
        None => {
            text.extend_from_slice(b".word 0x")?;
            push_hex_line(text, word)
        }
    }
}

/// The assembly text of some words, a line for each: the instruction that the word spells, with places as numbers of
/// bytes, or `.word` and eight hexadecimal digits.
pub fn disassemble(alloc: Global, words: &[u32]) -> Result<Text, Memory>
    ensures text { IfOk result (λ text. text ≡ lines_text words.now) }
    ensures short { IfOk result (λ text. length words.now ≤ most_words → length text ≤ 2097152) }
    ensures back { length words.now ≤ most_words → assembled (lines_text words.now) ≡ Ok words.now }
{
    let mut items = Vec::new(alloc);
    for word in words {
        push_word(alloc, &mut items, *word)?;
    }
    Ok(Text { items })
}
