//! The commands, and what may stand behind each.
ghost use Rattle.std.specs.Prelude.{◌≡◌};
ghost use Rattle.command_words.specs.Places;

/// A command.
#[derive(Clone, Copy, Debug, PartialEq, Eq)]
pub enum CommandName {
    /// `run`.
    Run,
    /// `build`.
    Build,
    /// `asm`.
    Asm,
    /// `dis`.
    Dis,
    /// `gen`.
    Gen,
}

/// What may stand at a place.
#[derive(Clone, Copy, Debug, PartialEq, Eq)]
pub enum Place {
    /// The name of a file, which is any text.
    File,
    /// The name of a kernel.
    Kernel,
    /// A seed.
    Seed,
    /// A count of statements.
    Count,
    /// A word with a key.
    Further,
    /// A word with a key of the machine.
    Machine,
    /// No word.
    Nothing,
}

/// The command of this name.
pub fn command_named(word: &str) -> Option<CommandName>
    ensures { result ≡ Places.command_named word.now }
{
    if word == "run" {
        return Some(CommandName::Run);
    }
    if word == "build" {
        return Some(CommandName::Build);
    }
    if word == "asm" {
        return Some(CommandName::Asm);
    }
    if word == "dis" {
        return Some(CommandName::Dis);
    }
    if word == "gen" {
        return Some(CommandName::Gen);
    }
    None
}

/// What may stand behind a command, where so many words stand between.
pub fn place_at(command: CommandName, between: usize) -> Place
    ensures { result ≡ Places.place_at command between }
{
    match (command, between) {
        (CommandName::Gen, 0) => Place::Seed,
        (_, 0) => Place::File,
        (CommandName::Run, _) => Place::Further,
        (CommandName::Build, 1) => Place::Kernel,
        (CommandName::Gen, 1) => Place::Count,
        (CommandName::Gen, _) => Place::Machine,
        (CommandName::Build | CommandName::Asm | CommandName::Dis, _) => Place::Nothing,
    }
}
