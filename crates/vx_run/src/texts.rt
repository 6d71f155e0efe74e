//! Texts that are told in another form: an assembly text by the lines of its words, and a text of words as an assembly text.

ghost use Rattle.std.specs.Prelude.{◌≡◌, IfErr};
ghost use Rattle.asm_text.specs.AsmTexts.{assembled};
ghost use Rattle.asm_text.specs.HexLines.{hex_words_of};
ghost use Rattle.vx_run.specs.Answers.{assembly_text_outcome, word_text_outcome, assembly_outcome, disassembly_outcome, FromBytes, FromText, most_assembly, most_word_text};
ghost use Rattle.vx_run.specs.Stages.{ComesTo, IsPlain, StageFaults, StageMisses};

use crate::reading::read_file;
use crate::stages::{Answer, Stop};
use asm_text::{hex_text, hex_words};
use std::alloc::Global;
use vx_asm::assemble;
use vx_base::Text;
use vx_disasm::disassemble;
use vx_world::Files;

/// The most bytes that an assembly text may have.
const ASSEMBLY_LIMIT: usize = 2_097_152;

/// The most bytes that a text of words may have.
const WORD_TEXT_LIMIT: usize = 1_048_576;

// The lines of an assembly text's words.
fn lines_of_assembly(alloc: Global, text: &[u8]) -> Result<Answer, Stop>
    ensures comes { ComesTo (FromBytes most_assembly assembly_text_outcome text.now) result }
    ensures plain { IfErr result IsPlain }
{
    if text.len() > ASSEMBLY_LIMIT {
        return Err(Stop::too_long());
    }
    let words = assemble(alloc, text)?;
    Ok(Answer::printed(alloc, hex_text(alloc, words.as_slice())?))
}

// The assembly text of a text of words.
fn assembly_of_lines(alloc: Global, text: &[u8]) -> Result<Answer, Stop>
    ensures comes { ComesTo (FromBytes most_word_text word_text_outcome text.now) result }
    ensures plain { IfErr result IsPlain }
{
    if text.len() > WORD_TEXT_LIMIT {
        return Err(Stop::too_long());
    }
    let words = hex_words(alloc, text)?;
    Ok(Answer::printed(alloc, disassemble(alloc, words.as_slice())?))
}

/// What `asm` comes to: the words of the file's assembly text, in lines.
pub fn answer_asm<F: Files>(alloc: Global, files: &mut F, file: &Text) -> Result<Answer, Stop>
    ensures comes { ComesTo (FromText (F.held files.old) file.now most_assembly assembly_text_outcome) result }
    ensures faults { StageFaults result (F.faults files.old) (F.faults files.new) }
    ensures misses { StageMisses result (F.misses files.old) (F.misses files.new) }
{
    let text = read_file(alloc, files, file, ASSEMBLY_LIMIT + 1)?;
    lines_of_assembly(alloc, &text)
}

/// What `dis` comes to: the assembly text of the file's words.
pub fn answer_dis<F: Files>(alloc: Global, files: &mut F, file: &Text) -> Result<Answer, Stop>
    ensures comes { ComesTo (FromText (F.held files.old) file.now most_word_text word_text_outcome) result }
    ensures faults { StageFaults result (F.faults files.old) (F.faults files.new) }
    ensures misses { StageMisses result (F.misses files.old) (F.misses files.new) }
{
    let text = read_file(alloc, files, file, WORD_TEXT_LIMIT + 1)?;
    assembly_of_lines(alloc, &text)
}
