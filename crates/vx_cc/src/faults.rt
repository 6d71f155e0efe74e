use ocl_types::Counted;
use std::fmt;
use thiserror::Error;
use vx_base::Pos;

/// Why a source file is refused: a kernel file, an assembly text or a text of words.
#[derive(Clone, Copy, Debug, PartialEq, Eq)]
pub enum SourceKind {
    /// The file has more bytes than a file of its kind may have.
    TooLong,
    /// A byte that begins no token.
    BadByte,
    /// A number that is no literal.
    BadNumber,
    /// A line that is no directive.
    BadDirective,
    /// A comment that is not closed.
    OpenComment,
    /// More tokens than a file may have.
    TooManyTokens,
    /// A token with which no file goes on.
    Unexpected,
    /// A token with which no file goes on, and which stands for what the language leaves out.
    Subset,
    /// Statements, or an expression, nested too deep.
    TooDeep,
    /// A name that nothing has.
    Unknown,
    /// A name that its scope has already.
    Twice,
    /// Something of another kind than is wanted.
    Mismatch,
    /// A function that can reach a call of itself.
    Recursive,
    /// A function has too many of something.
    TooMany {
        /// Of what.
        what: Counted,
        /// How many, 2^32 - 1 where there are more.
        count: u32,
    },
    /// A kernel whose branches and loops, or calls, are nested too deep once its calls are expanded.
    TooNested,
    /// No text goes on so.
    Syntax,
    /// A number does not fit its field, or a label is too far.
    Range,
    /// No line has the label.
    NoLabel,
    /// An earlier line has the label.
    LabelTwice,
    /// A lane of a kernel may need a larger frame than a lane may have.
    Slots {
        /// How many words of its frame a lane may need, 2^32 - 1 where there are more.
        slots: u32,
    },
    /// There are more words than an image may have, or a kernel's code may take more.
    Words {
        /// How many: of a text up to the first that is one too many; of a kernel 2^32 - 1 where there are more.
        words: u32,
    },
    /// Memory ran out.
    Memory,
}

/// Why a source file is refused, and where.
#[derive(Clone, Copy, Debug, PartialEq, Eq, Error)]
#[error("{pos}: {kind}")]
pub struct SourceFault {
    /// The place of the fault; 1:1 where memory ran out.
    pub pos: Pos,
    /// Why.
    pub kind: SourceKind,
}

impl fmt::Display for SourceKind {
    ghost use Rattle.std.specs.Prelude.{Some};
    ghost use Rattle.vx_cc.specs.Faults.{source_kind_text};

    ghost output = { λ kind. Some (source_kind_text kind) };

    fn fmt<W: fmt::Write>(&self, f: &mut fmt::Formatter<W>) -> fmt::Result {
        match self {
            SourceKind::TooLong => write!(f, "TooLong"),
            SourceKind::BadByte => write!(f, "BadByte"),
            SourceKind::BadNumber => write!(f, "BadNumber"),
            SourceKind::BadDirective => write!(f, "BadDirective"),
            SourceKind::OpenComment => write!(f, "OpenComment"),
            SourceKind::TooManyTokens => write!(f, "TooManyTokens"),
            SourceKind::Unexpected => write!(f, "Unexpected"),
            SourceKind::Subset => write!(f, "Subset"),
            SourceKind::TooDeep => write!(f, "TooDeep"),
            SourceKind::Unknown => write!(f, "Unknown"),
            SourceKind::Twice => write!(f, "Twice"),
            SourceKind::Mismatch => write!(f, "Mismatch"),
            SourceKind::Recursive => write!(f, "Recursive"),
            SourceKind::TooMany { count, .. } => write!(f, "TooMany {count}"),
            SourceKind::TooNested => write!(f, "TooNested"),
            SourceKind::Syntax => write!(f, "Syntax"),
            SourceKind::Range => write!(f, "Range"),
            SourceKind::NoLabel => write!(f, "NoLabel"),
            SourceKind::LabelTwice => write!(f, "LabelTwice"),
            SourceKind::Slots { slots } => write!(f, "Slots {slots}"),
            SourceKind::Words { words } => write!(f, "Words {words}"),
            SourceKind::Memory => write!(f, "Memory"),
        }
    }
}
