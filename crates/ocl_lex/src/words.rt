//! The reserved words.
ghost use Rattle.std.specs.Prelude.{◌≡◌, IfOk};
ghost use Rattle.std.specs.Prelude.{nat_eq};
ghost use Rattle.std.specs.List.{find, starts_with};
ghost use Rattle.std.specs.Str.{bytes_eq};
ghost use Rattle.ocl_lex.specs.Words as spec;

use crate::bytes::bytes_from;
use ocl_tokens::{Component, LeftOut, TokenKind, Width, Word};
use std::alloc::{AllocError, Global};
use vx_base::Text;

const WIDTHS: [Width; 5] = [
    Width::Two,
    Width::Three,
    Width::Four,
    Width::Eight,
    Width::Sixteen,
];

const COMPONENTS: [Component; 10] = [
    Component::Char,
    Component::Uchar,
    Component::Short,
    Component::Ushort,
    Component::Int,
    Component::Uint,
    Component::Long,
    Component::Ulong,
    Component::Float,
    Component::Double,
];

/// The words that are no vector types.
const WORDS: [Word; 61] = [
    Word::UnderscoreKernel,
    Word::Kernel,
    Word::UnderscoreGlobal,
    Word::Global,
    Word::UnderscoreConstant,
    Word::Constant,
    Word::UnderscoreLocal,
    Word::Local,
    Word::Const,
    Word::Volatile,
    Word::Restrict,
    Word::Inline,
    Word::Static,
    Word::Void,
    Word::Char,
    Word::Uchar,
    Word::Short,
    Word::Ushort,
    Word::Int,
    Word::Uint,
    Word::SizeT,
    Word::Signed,
    Word::Unsigned,
    Word::If,
    Word::Else,
    Word::While,
    Word::Do,
    Word::For,
    Word::Break,
    Word::Continue,
    Word::Return,
    Word::Barrier,
    Word::LeftOut(LeftOut::Float),
    Word::LeftOut(LeftOut::Double),
    Word::LeftOut(LeftOut::Half),
    Word::LeftOut(LeftOut::Long),
    Word::LeftOut(LeftOut::Ulong),
    Word::LeftOut(LeftOut::Bool),
    Word::LeftOut(LeftOut::Struct),
    Word::LeftOut(LeftOut::Union),
    Word::LeftOut(LeftOut::Enum),
    Word::LeftOut(LeftOut::Typedef),
    Word::LeftOut(LeftOut::Switch),
    Word::LeftOut(LeftOut::Case),
    Word::LeftOut(LeftOut::Default),
    Word::LeftOut(LeftOut::Goto),
    Word::LeftOut(LeftOut::Sizeof),
    Word::LeftOut(LeftOut::Extern),
    Word::LeftOut(LeftOut::Register),
    Word::LeftOut(LeftOut::Auto),
    Word::LeftOut(LeftOut::Image2d),
    Word::LeftOut(LeftOut::Image3d),
    Word::LeftOut(LeftOut::Sampler),
    Word::LeftOut(LeftOut::Event),
    Word::LeftOut(LeftOut::Attribute),
    Word::LeftOut(LeftOut::UnderscorePrivate),
    Word::LeftOut(LeftOut::Private),
    Word::LeftOut(LeftOut::UnderscoreReadOnly),
    Word::LeftOut(LeftOut::UnderscoreWriteOnly),
    Word::LeftOut(LeftOut::ReadOnly),
    Word::LeftOut(LeftOut::WriteOnly),
];

fn width_name(width: Width) -> &'static [u8]
    ensures { result.now ≡ spec.width_name width }
{
    match width {
        Width::Two => b"2",
        Width::Three => b"3",
        Width::Four => b"4",
        Width::Eight => b"8",
        Width::Sixteen => b"16",
    }
}

fn component_name(component: Component) -> &'static [u8]
    ensures { result.now ≡ spec.component_name component }
{
    match component {
        Component::Char => b"char",
        Component::Uchar => b"uchar",
        Component::Short => b"short",
        Component::Ushort => b"ushort",
        Component::Int => b"int",
        Component::Uint => b"uint",
        Component::Long => b"long",
        Component::Ulong => b"ulong",
        Component::Float => b"float",
        Component::Double => b"double",
    }
}

fn left_out_name(word: LeftOut) -> &'static [u8]
    ensures { result.now ≡ spec.left_out_name word }
{
    match word {
        LeftOut::Float => b"float",
        LeftOut::Double => b"double",
        LeftOut::Half => b"half",
        LeftOut::Long => b"long",
        LeftOut::Ulong => b"ulong",
        LeftOut::Bool => b"bool",
        LeftOut::Struct => b"struct",
        LeftOut::Union => b"union",
        LeftOut::Enum => b"enum",
        LeftOut::Typedef => b"typedef",
        LeftOut::Switch => b"switch",
        LeftOut::Case => b"case",
        LeftOut::Default => b"default",
        LeftOut::Goto => b"goto",
        LeftOut::Sizeof => b"sizeof",
        LeftOut::Extern => b"extern",
        LeftOut::Register => b"register",
        LeftOut::Auto => b"auto",
        LeftOut::Image2d => b"image2d_t",
        LeftOut::Image3d => b"image3d_t",
        LeftOut::Sampler => b"sampler_t",
        LeftOut::Event => b"event_t",
        LeftOut::Attribute => b"__attribute__",
        LeftOut::UnderscorePrivate => b"__private",
        LeftOut::Private => b"private",
        LeftOut::UnderscoreReadOnly => b"__read_only",
        LeftOut::UnderscoreWriteOnly => b"__write_only",
        LeftOut::ReadOnly => b"read_only",
        LeftOut::WriteOnly => b"write_only",
        LeftOut::Vector { of: _, width: _ } => b"",
    }
}

/// The bytes of a word that is no vector type, and none for a vector type.
pub fn word_name(word: Word) -> &'static [u8]
    ensures { result.now ≡ spec.word_name word }
{
    match word {
        Word::UnderscoreKernel => b"__kernel",
        Word::Kernel => b"kernel",
        Word::UnderscoreGlobal => b"__global",
        Word::Global => b"global",
        Word::UnderscoreConstant => b"__constant",
        Word::Constant => b"constant",
        Word::UnderscoreLocal => b"__local",
        Word::Local => b"local",
        Word::Const => b"const",
        Word::Volatile => b"volatile",
        Word::Restrict => b"restrict",
        Word::Inline => b"inline",
        Word::Static => b"static",
        Word::Void => b"void",
        Word::Char => b"char",
        Word::Uchar => b"uchar",
        Word::Short => b"short",
        Word::Ushort => b"ushort",
        Word::Int => b"int",
        Word::Uint => b"uint",
        Word::SizeT => b"size_t",
        Word::Signed => b"signed",
        Word::Unsigned => b"unsigned",
        Word::If => b"if",
        Word::Else => b"else",
        Word::While => b"while",
        Word::Do => b"do",
        Word::For => b"for",
        Word::Break => b"break",
        Word::Continue => b"continue",
        Word::Return => b"return",
        Word::Barrier => b"barrier",
        Word::LeftOut(word) => left_out_name(word),
    }
}

#[tactic(auto, unfolding(crate::specs::Words::width_named))]
fn width_named(text: &[u8]) -> Option<Width>
    ensures { result ≡ spec.width_named text.now }
{
    WIDTHS
        .iter()
        .copied()
        .find(|width| width_name(*width) == text)
}

/// The component whose name stands at the front of some bytes.
fn component_at(text: &[u8]) -> Option<Component>
    ensures { result ≡ find (λ c. starts_with nat_eq text.now (spec.component_name c)) spec.all_components }
{
    COMPONENTS
        .iter()
        .copied()
        .find(|component| text.starts_with(component_name(*component)))
}

#[tactic(auto, unfolding(crate::specs::Words::vector_named))]
fn vector_named(text: &[u8]) -> Option<Word>
    ensures { result ≡ spec.vector_named text.now }
{
    let Some(of) = component_at(text) else {
        return None;
    };
    let Some(width) = width_named(bytes_from(text, component_name(of).len())) else {
        return None;
    };
    Some(Word::LeftOut(LeftOut::Vector { of, width }))
}

fn plain_word_named(text: &[u8]) -> Option<Word>
    ensures { result ≡ find (λ w. bytes_eq (spec.word_name w) text.now) spec.all_words }
{
    WORDS.iter().copied().find(|word| word_name(*word) == text)
}

/// The reserved word that some bytes are.
#[tactic(auto, unfolding(crate::specs::Words::word_named))]
pub fn word_named(text: &[u8]) -> Option<Word>
    ensures { result ≡ spec.word_named text.now }
{
    match plain_word_named(text) {
        Some(word) => Some(word),
        None => vector_named(text),
    }
}

/// The token of a name that no macro replaces.
pub fn name_kind(alloc: Global, text: &[u8]) -> Result<TokenKind, AllocError>
    ensures { IfOk result (λ kind. kind ≡ spec.name_kind text.now) }
{
    match word_named(text) {
        Some(word) => Ok(TokenKind::Word(word)),
        None => {
            let items = Vec::from_slice(alloc, text)?;
            Ok(TokenKind::Name(Text { items }))
        }
    }
}
