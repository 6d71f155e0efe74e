//! The command that the words ask for.
ghost use Rattle.std.specs.Prelude.{◌≡◌, ◌⊎◌, ◌∷◌, ℕ, Ok, Err, map, IfOk};
ghost use Rattle.std.specs.String.{string_bytes};
ghost use Rattle.vx_words.specs.declared.command.Command.{Command};
ghost use Rattle.vx_words.specs.declared.usage.UsageKind.{UsageKind};
ghost use Rattle.vx_words.specs.Commands.{GivesFile, IsCommand, IsUsage, Reads};
ghost use Rattle.std.specs.Prelude.{codes};

use crate::form::read_form;
use crate::further::{is_name, text_of};
use crate::run_words::RunWords;
use crate::usage::{UsageFault, UsageKind};
use std::alloc::Global;
use vx_base::Text;

/// What the words of the command line ask for.
#[derive(Debug, Drop)]
pub enum Command {
    /// `run`: launch a kernel, and print buffers.
    Run(RunWords),
    /// `build FILE ENTRY`: print the words of a compiled kernel.
    Build {
        /// The file of the kernel.
        file: Text,
        /// The kernel's name.
        entry: Text,
    },
    /// `asm FILE`: print the words of an assembly text.
    Asm {
        /// The file of the text.
        file: Text,
    },
    /// `dis FILE`: print words as an assembly text.
    Dis {
        /// The file of the words.
        file: Text,
    },
}

/// The fault of words that begin with no command.
const BAD_COMMAND: UsageFault = UsageFault::Usage {
    word: 0,
    kind: UsageKind::Command,
};

/// The fault of a command without its file.
const NO_FILE: UsageFault = UsageFault::Usage {
    word: 1,
    kind: UsageKind::Missing,
};

/// The fault of a word behind the file of a command of one file.
const FURTHER_WORD: UsageFault = UsageFault::Usage {
    word: 2,
    kind: UsageKind::Form,
};

/// The fault of `build` without its entry.
const NO_ENTRY: UsageFault = UsageFault::Usage {
    word: 2,
    kind: UsageKind::Missing,
};

/// The fault of an entry that is no name.
const BAD_ENTRY: UsageFault = UsageFault::Usage {
    word: 2,
    kind: UsageKind::Form,
};

/// The fault of a word behind the entry of `build`.
const BEHIND_ENTRY: UsageFault = UsageFault::Usage {
    word: 3,
    kind: UsageKind::Form,
};

/// The one file behind a command.
fn only_file(alloc: Global, behind: &[String]) -> Result<Text, UsageFault>
    ensures { GivesFile (map string_bytes behind.now) result }
{
    match behind {
        [] => Err(NO_FILE),
        [file] => text_of(alloc, file.as_str()),
        _ => Err(FURTHER_WORD),
    }
}

/// The words behind `build`: a file, and the name of a kernel.
fn read_build(alloc: Global, behind: &[String]) -> Result<Command, UsageFault>
    ensures { Reads (codes "build" ∷ map string_bytes behind.now) result }
{
    let Some((file, behind_file)) = behind.split_first() else {
        return Err(NO_FILE);
    };
    let Some((entry, more)) = behind_file.split_first() else {
        return Err(NO_ENTRY);
    };
    if !is_name(entry.as_bytes()) {
        return Err(BAD_ENTRY);
    }
    if !more.is_empty() {
        return Err(BEHIND_ENTRY);
    }
    let file = text_of(alloc, file.as_str())?;
    let entry = text_of(alloc, entry.as_str())?;
    Ok(Command::Build { file, entry })
}

/// The command of this name with these words behind it.
fn read_command(alloc: Global, name: &str, behind: &[String]) -> Result<Command, UsageFault>
    ensures { Reads (name.now ∷ map string_bytes behind.now) result }
{
    if name == "run" {
        return Ok(Command::Run(read_form(alloc, behind)?));
    }
    if name == "build" {
        return read_build(alloc, behind);
    }
    if name == "asm" {
        return Ok(Command::Asm {
            file: only_file(alloc, behind)?,
        });
    }
    if name == "dis" {
        return Ok(Command::Dis {
            file: only_file(alloc, behind)?,
        });
    }
    Err(BAD_COMMAND)
}

/// The command that all the words together ask for.
fn command_of(alloc: Global, words: &[String]) -> Result<Command, UsageFault>
    ensures { Reads (map string_bytes words.now) result }
{
    let Some((name, behind)) = words.split_first() else {
        return Err(BAD_COMMAND);
    };
    read_command(alloc, name.as_str(), behind)
}

/// What the words of the command line ask for.
///
/// The first word is `run`, `build`, `asm` or `dis`. Behind `asm` and `dis` stands one file, and behind `build` a file and the name of a
/// kernel. Behind `run` stand the file and then,
/// in any order, at most 16 words `buf=NAME:int:in:PATH` or `buf=NAME:int:zero:COUNT`, one `do=ENTRY/N/N` or
/// `do=ENTRY/N/N/ARG,ARG..`, and at most 16 `show=NAME`; where they have another form, the number of the word in the fault
/// is 0.
pub fn read_words(alloc: Global, words: &[String]) -> Result<Command, UsageFault>
    ensures spelled { IfOk result (IsCommand (map string_bytes words.now)) }
    ensures only { (c : Command) → IsCommand (map string_bytes words.now) c
        → (result ≡ Ok c) ⊎ (result ≡ Err UsageFault.Memory) }

    ensures fault { (word : ℕ) (kind : UsageKind) → result ≡ Err (UsageFault.Usage word kind)
        → IsUsage (map string_bytes words.now) word kind }
    ensures fault_only { (word : ℕ) (kind : UsageKind) → IsUsage (map string_bytes words.now) word kind
        → (result ≡ Err (UsageFault.Usage word kind)) ⊎ (result ≡ Err UsageFault.Memory) }
{
    command_of(alloc, words)
}
