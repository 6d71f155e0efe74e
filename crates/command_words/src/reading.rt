//! All words of the command line.
ghost use Rattle.std.specs.Prelude.{◌≡◌, ◌⊎◌, ◌∷◌, ℕ, Ok, Err, map, IfOk};
ghost use Rattle.std.specs.String.{string_bytes};
ghost use Rattle.command_words.specs.declared.commands.Command.{Command};
ghost use Rattle.command_words.specs.declared.usage.UsageKind.{UsageKind};
ghost use Rattle.command_words.specs.Commands;
ghost use Rattle.command_words.specs.Commands.{Answers};
ghost use Rattle.command_words.specs.Spelled.{IsCommand, IsUsage};

use crate::commands::Command;
use crate::entries::Entry;
use crate::meaning::{
    buffers_of, has_launch, launches_of, seed_of, shape_of, shows_of, stats_of, word_of,
};
use crate::names::copy_of;
use crate::pass::{fault_behind, known_words};
use crate::places::{CommandName, command_named};
use crate::usage::{UsageFault, UsageKind};
use std::alloc::{AllocError, Global};
use vx_base::Text;

/// The fault of words that begin with no command.
const NO_COMMAND: UsageFault = UsageFault::Usage {
    word: 0,
    kind: UsageKind::Command,
};

/// What the words behind `run FILE` ask for, if there is a launch.
fn run_of(alloc: Global, file: &Text, words: &[Entry]) -> Result<Option<Command>, AllocError>
    ensures { IfOk result (λ found. found ≡ Commands.run_of file.now words.now) }
{
    if !has_launch(words) {
        return Ok(None);
    }
    let file = copy_of(alloc, file)?;
    let buffers = buffers_of(alloc, words)?;
    let launches = launches_of(alloc, buffers.as_slice(), words)?;
    let shows = shows_of(alloc, buffers.as_slice(), words)?;
    Ok(Some(Command::Run {
        file,
        buffers,
        launches,
        shows,
        shape: shape_of(words),
        stats: stats_of(words),
    }))
}

/// What the words behind `run` ask for, if the first is a file.
fn run_behind(alloc: Global, first: &Entry, rest: &[Entry]) -> Result<Option<Command>, AllocError>
    ensures { IfOk result (λ found. found ≡ Commands.meaning_of CommandName.Run (first.now ∷ rest.now)) }
{
    match first {
        Entry::File(file) => run_of(alloc, file, rest),
        _ => Ok(None),
    }
}

/// What the words behind `run` ask for.
fn run_at(alloc: Global, words: &[Entry]) -> Result<Option<Command>, AllocError>
    ensures { IfOk result (λ found. found ≡ Commands.meaning_of CommandName.Run words.now) }
{
    let Some((first, rest)) = words.split_first() else {
        return Ok(None);
    };
    run_behind(alloc, first, rest)
}

/// What the words behind `build` ask for.
fn build_of(alloc: Global, words: &[Entry]) -> Result<Option<Command>, AllocError>
    ensures { IfOk result (λ found. found ≡ Commands.meaning_of CommandName.Build words.now) }
{
    match words {
        [Entry::File(file), Entry::Kernel(name), ..] => Ok(Some(Command::Build {
            file: copy_of(alloc, file)?,
            entry: copy_of(alloc, name)?,
        })),
        _ => Ok(None),
    }
}

/// What the words behind a command ask for, and None where a word is missing.
fn meaning_of(
    alloc: Global,
    command: CommandName,
    words: &[Entry],
) -> Result<Option<Command>, AllocError>
    ensures { IfOk result (λ found. found ≡ Commands.meaning_of command words.now) }
{
    match (command, words) {
        (CommandName::Run, _) => run_at(alloc, words),
        (CommandName::Build, _) => build_of(alloc, words),
        (CommandName::Asm, [Entry::File(file), ..]) => Ok(Some(Command::Asm {
            file: copy_of(alloc, file)?,
        })),
        (CommandName::Dis, [Entry::File(file), ..]) => Ok(Some(Command::Dis {
            file: copy_of(alloc, file)?,
        })),
        (CommandName::Gen, [Entry::Seed(seed), Entry::Count(count), rest @ ..]) => {
            Ok(Some(Command::Gen {
                seed: seed_of(seed),
                count: word_of(count),
                shape: shape_of(rest),
                stats: stats_of(rest),
            }))
        }
        _ => Ok(None),
    }
}

/// The answer to the words behind a command.
fn answer_to(alloc: Global, command: CommandName, texts: &[String]) -> Result<Command, UsageFault>
    ensures { Answers result (Commands.answer_to command (map string_bytes texts.now)) }
{
    let words = known_words(alloc, command, texts)?;
    let Some(asked) = meaning_of(alloc, command, words.items.as_slice())? else {
        return Err(fault_behind(texts.len(), UsageKind::Missing));
    };
    Ok(asked)
}

/// The answer to the first word and those behind it.
fn answer_behind(alloc: Global, name: &str, texts: &[String]) -> Result<Command, UsageFault>
    ensures { Answers result (Commands.answer (name.now ∷ map string_bytes texts.now)) }
{
    let Some(command) = command_named(name) else {
        return Err(NO_COMMAND);
    };
    answer_to(alloc, command, texts)
}

/// The answer to all words.
fn answer_of(alloc: Global, words: &[String]) -> Result<Command, UsageFault>
    ensures { Answers result (Commands.answer (map string_bytes words.now)) }
{
    let Some((name, texts)) = words.split_first() else {
        return Err(NO_COMMAND);
    };
    answer_behind(alloc, name.as_str(), texts)
}

/// What the words of the command line ask for.
///
/// # Errors
///
/// `Usage` with the number of the word and what is wrong with it, the first of these. `Command` comes first. Then each word
/// is looked at before the next, for `Form`, `Number` and `Repeated` in this order; then the words again for `Unknown`; and
/// `Missing` comes last. `Memory` where memory ran out.
pub fn read_command_line(alloc: Global, words: &[String]) -> Result<Command, UsageFault>
    ensures spelled { IfOk result (IsCommand (map string_bytes words.now)) }
    ensures only { (c : Command) → IsCommand (map string_bytes words.now) c
        → (result ≡ Ok c) ⊎ (result ≡ Err UsageFault.Memory) }
    ensures fault { (word : ℕ) (kind : UsageKind) → result ≡ Err (UsageFault.Usage word kind)
        → IsUsage (map string_bytes words.now) word kind }
    ensures fault_only { (word : ℕ) (kind : UsageKind) → IsUsage (map string_bytes words.now) word kind
        → (result ≡ Err (UsageFault.Usage word kind)) ⊎ (result ≡ Err UsageFault.Memory) }
{
    answer_of(alloc, words)
}
