//! The words of `run` from their parts.
ghost use Rattle.std.specs.Prelude.{◌≡◌, ℕ, List, [], ◌∷◌, map, codes, IfOk, MatchResult};
ghost use Rattle.std.specs.String.{string_bytes};
ghost use Rattle.vx_words.specs.Words.{Further, IsRun};
ghost use Rattle.vx_words.specs.WordForms.{Finds, IsBadForm, Spells, further_of, IsParts, IsMeaning};

use crate::further::{BAD_FORM, DoWord, FurtherWord, read_further, text_of};
use crate::numbers::{elements, has_distinct_names, numbers_of};
use crate::run_words::{BufWord, RunWords};
use crate::usage::UsageFault;
use std::alloc::{AllocError, Global};
use vx_base::{ListOf, Text};

/// The most buffers.
const MOST_BUFFERS: usize = 16;

/// The most buffers to print.
const MOST_SHOWS: usize = 16;

/// The most words behind the file: the buffers, one launch, and the buffers to print.
const MOST_FURTHER: usize = MOST_BUFFERS + 1 + MOST_SHOWS;

/// The words behind the file by what they say, each kind in the order of its words.
#[derive(Debug, Drop)]
pub struct Parts {
    /// The buffers.
    pub buffers: ListOf<BufWord>,
    /// The launches.
    pub launches: ListOf<DoWord>,
    /// The names of the buffers to print.
    pub shows: ListOf<Text>,
}

/// Each word behind the file.
fn read_each(alloc: Global, words: &[String]) -> Result<Vec<FurtherWord>, UsageFault>
    ensures { MatchResult result
        (λ further. Spells (map further_of further.items) (map string_bytes words.now))
        (λ fault. IsBadForm fault ((further : List Further) → Spells further (map string_bytes words.now) → ⊥)) }
{
    let mut further = Vec::new(alloc);
    for word in words {
        further.push(read_further(alloc, word.as_str())?)?;
    }
    Ok(further)
}

/// The words behind the file by what they say.
fn parts_of(alloc: Global, further: Vec<FurtherWord>) -> Result<Parts, AllocError>
    ensures { IfOk result (IsParts (map further_of further.items)) }
{
    let mut buffers = Vec::new(alloc);
    let mut launches = Vec::new(alloc);
    let mut shows = Vec::new(alloc);
    for word in further {
        match word {
            FurtherWord::Buf(buffer) => buffers.push(buffer)?,
            FurtherWord::Do(launch) => launches.push(launch)?,
            FurtherWord::Print(name) => shows.push(name)?,
        }
    }
    Ok(Parts {
        buffers: ListOf { items: buffers },
        launches: ListOf { items: launches },
        shows: ListOf { items: shows },
    })
}

/// The one launch.
fn only_launch(launches: ListOf<DoWord>) -> Result<DoWord, UsageFault>
    ensures { Finds result (λ launch. launches ≡ launch ∷ []) }
{
    let ListOf { mut items } = launches;
    let Some(launch) = items.pop() else {
        return Err(BAD_FORM);
    };
    if !items.is_empty() {
        return Err(BAD_FORM);
    }
    Ok(launch)
}

/// What the parts ask for.
fn run_of(alloc: Global, file: &str, parts: Parts) -> Result<RunWords, UsageFault>
    ensures { Finds result (λ c. (c.file ≡ file.now) × IsMeaning parts c) }
{
    let Parts {
        buffers,
        launches,
        shows,
    } = parts;
    if buffers.len() > MOST_BUFFERS {
        return Err(BAD_FORM);
    }
    if shows.len() > MOST_SHOWS {
        return Err(BAD_FORM);
    }
    if !has_distinct_names(elements(&buffers)) {
        return Err(BAD_FORM);
    }
    let launch = only_launch(launches)?;
    let arguments = numbers_of(alloc, elements(&buffers), elements(&launch.names))?;
    let shows = numbers_of(alloc, elements(&buffers), elements(&shows))?;
    let file = text_of(alloc, file)?;
    Ok(RunWords {
        file,
        buffers,
        entry: launch.entry,
        items: launch.items,
        arguments,
        shows,
    })
}

/// The words behind `run`.
pub fn read_form(alloc: Global, words: &[String]) -> Result<RunWords, UsageFault>
    ensures { Finds result (IsRun (codes "run" ∷ map string_bytes words.now)) }
{
    let Some((file, further)) = words.split_first() else {
        return Err(BAD_FORM);
    };
    if further.len() > MOST_FURTHER {
        return Err(BAD_FORM);
    }
    let further = read_each(alloc, further)?;
    let parts = parts_of(alloc, further)?;
    run_of(alloc, file.as_str(), parts)
}
