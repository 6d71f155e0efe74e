//! What the stages of a call give on: an answer, or why the call stops before it.

ghost use Rattle.std.specs.Prelude.{◌≡◌, IfOk};
ghost use Rattle.vx_cc.specs.Faults.{first_place};
ghost use Rattle.vx_run.specs.Answers.{built, printed, refusal};

use crate::lines::cause_line;
use crate::report::{Activity, Cause, LaunchKind};
use asm_text::{AsmFault, HexFault, hex_text};
use kernel_images::CompileFault;
use std::alloc::{AllocFailed, Global};
use vx_base::{Memory, Pos, Text};
use vx_cc::{SourceFault, SourceKind};
use vx_isa::Image;
use vx_words::UsageFault;

/// What a call answers: why it ends, the text that it writes, and what was made and ran.
#[derive(Debug, Drop)]
pub struct Answer {
    /// Why the call ends.
    pub cause: Cause,
    /// The text that it writes.
    pub text: Text,
    /// What was made, and what ran.
    pub activity: Activity,
}

impl Answer {
    /// The answer of a call that prints a text.
    pub fn printed(alloc: Global, text: Text) -> Answer
        ensures { result ≡ printed text }
    {
        Answer {
            cause: Cause::Done,
            text,
            activity: Activity::idle(alloc),
        }
    }

    /// The answer of a call that makes an image: the words of the image, in lines.
    pub fn built(alloc: Global, image: Image) -> Result<Answer, Memory>
        ensures { IfOk result (λ answer. answer ≡ built image) }
    {
        let text = hex_text(alloc, image.words.as_slice())?;
        Ok(Answer {
            cause: Cause::Done,
            text,
            activity: Activity::made(alloc, image)?,
        })
    }

    /// The answer of a call that is refused: the line that names the cause.
    pub fn refusal(alloc: Global, cause: Cause) -> Result<Answer, Memory>
        ensures { IfOk result (λ answer. answer ≡ refusal cause) }
    {
        let text = cause_line(alloc, &cause)?;
        Ok(Answer {
            cause,
            text,
            activity: Activity::idle(alloc),
        })
    }
}

/// Why a call has no answer of a command.
#[derive(Debug, Drop)]
pub enum Stop {
    /// The call is refused for this cause.
    Refused(Cause),
    /// Memory ran out.
    Memory,
}

impl Stop {
    /// A source file is refused for this kind of fault, there.
    pub fn source(pos: Pos, kind: SourceKind) -> Stop
        ensures { result ≡ Stop.Refused (Cause.Source pos kind) }
    {
        Stop::Refused(Cause::Source { pos, kind })
    }

    /// A source file is refused because it has too many bytes.
    pub fn too_long() -> Stop
        ensures { result ≡ Stop.Refused (Cause.Source first_place SourceKind.TooLong) }
    {
        Stop::source(Pos { line: 1, col: 1 }, SourceKind::TooLong)
    }
}

impl From<Memory> for Stop {
    ghost use Rattle.std.specs.Prelude.{◌≡◌};
    ghost use Rattle.vx_run.specs.declared.stages.Stop.TheVariants.{Memory};

    ghost from_gives = { λ _ stop. stop ≡ Memory };

    fn from(_fault: Memory) -> Stop {
        Stop::Memory
    }
}

impl<T: Drop> From<AllocFailed<T>> for Stop {
    ghost use Rattle.std.specs.Prelude.{◌≡◌};
    ghost use Rattle.vx_run.specs.declared.stages.Stop.TheVariants.{Memory};

    ghost from_gives = { λ _ stop. stop ≡ Memory };

    fn from(_fault: AllocFailed<T>) -> Stop {
        Stop::Memory
    }
}

impl From<UsageFault> for Stop {
    ghost use Rattle.vx_run.specs.Stages.{StopsFor};

    ghost from_gives = { StopsFor };

    fn from(fault: UsageFault) -> Stop {
        match fault {
            UsageFault::Usage { word, kind } => Stop::Refused(Cause::Usage { word, kind }),
            UsageFault::Memory => Stop::Memory,
        }
    }
}

impl From<SourceFault> for Stop {
    ghost use Rattle.vx_run.specs.Stages.{StopsForSource};

    ghost from_gives = { StopsForSource };

    fn from(fault: SourceFault) -> Stop {
        match fault.kind {
            SourceKind::Memory => Stop::Memory,
            kind => Stop::source(fault.pos, kind),
        }
    }
}

impl From<CompileFault> for Stop {
    ghost use Rattle.vx_run.specs.Stages.{StopsForImage};

    ghost from_gives = { StopsForImage };

    fn from(fault: CompileFault) -> Stop {
        match fault {
            CompileFault::NoEntry => Stop::Refused(Cause::Launch {
                index: 0,
                kind: LaunchKind::NoEntry,
            }),
            CompileFault::Slots { pos, slots } => Stop::source(pos, SourceKind::Slots { slots }),
            CompileFault::Words { pos, words } => Stop::source(pos, SourceKind::Words { words }),
            CompileFault::Memory => Stop::Memory,
        }
    }
}

impl From<AsmFault> for Stop {
    ghost use Rattle.vx_run.specs.Stages.{StopsForAsm};

    ghost from_gives = { StopsForAsm };

    fn from(fault: AsmFault) -> Stop {
        match fault {
            AsmFault::Syntax(pos) => Stop::source(pos, SourceKind::Syntax),
            AsmFault::Range(pos) => Stop::source(pos, SourceKind::Range),
            AsmFault::NoLabel(pos) => Stop::source(pos, SourceKind::NoLabel),
            AsmFault::LabelTwice(pos) => Stop::source(pos, SourceKind::LabelTwice),
            AsmFault::TooLarge { pos, words } => Stop::source(pos, SourceKind::Words { words }),
            AsmFault::Memory => Stop::Memory,
        }
    }
}

impl From<HexFault> for Stop {
    ghost use Rattle.vx_run.specs.Stages.{StopsForHex};

    ghost from_gives = { StopsForHex };

    fn from(fault: HexFault) -> Stop {
        match fault {
            HexFault::Syntax(pos) => Stop::source(pos, SourceKind::Syntax),
            HexFault::TooLarge { pos, words } => Stop::source(pos, SourceKind::Words { words }),
            HexFault::Memory => Stop::Memory,
        }
    }
}
