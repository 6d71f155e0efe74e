//! Which words name buffers that no word gives.
ghost use Rattle.std.specs.Prelude.{◌≡◌};
ghost use Rattle.std.specs.List.{list_any};
ghost use Rattle.command_words.specs.Repeats;

use crate::entries::{ArgEntry, Entry};
use crate::names::is_same;
use vx_base::Text;

/// Whether a word gives a buffer of this name.
fn gives(name: &Text, word: &Entry) -> bool
    ensures { result ≡ Repeats.gives name.now word.now }
{
    match word {
        Entry::Buf(buffer) => is_same(name, &buffer.name),
        _ => false,
    }
}

/// Whether one of these words gives a buffer of this name.
fn is_given(words: &[Entry], name: &Text) -> bool
    ensures { result ≡ Repeats.is_given words.now name.now }
{
    words.iter().any(|word| gives(name, word))
}

/// Whether an argument names a buffer that none of these words gives.
fn is_arg_unknown(words: &[Entry], arg: &ArgEntry) -> bool
    ensures { result ≡ Repeats.is_arg_unknown words.now arg.now }
{
    match arg {
        ArgEntry::Named(name) => !is_given(words, name),
        _ => false,
    }
}

/// Whether one of these arguments does.
fn are_args_unknown(words: &[Entry], args: &[ArgEntry]) -> bool
    ensures { result ≡ list_any (Repeats.is_arg_unknown words.now) args.now }
{
    args.iter().any(|arg| is_arg_unknown(words, arg))
}

/// Whether a word names a buffer that none of these words gives.
fn is_unknown(words: &[Entry], word: &Entry) -> bool
    ensures { result ≡ Repeats.is_unknown words.now word.now }
{
    match word {
        Entry::Do(launch) => are_args_unknown(words, launch.args.items.as_slice()),
        Entry::Show(name) => !is_given(words, name),
        _ => false,
    }
}

/// The place of the first word that names a buffer which no word gives.
pub fn first_unknown(words: &[Entry]) -> Option<usize>
    ensures { result ≡ Repeats.unknown_from words.now 0 words.now }
{
    for (place, word) in words.iter().enumerate() {
        if is_unknown(words, word) {
            return Some(place);
        }
    }
    None
}
