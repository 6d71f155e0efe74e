//! Which words repeat earlier ones.
ghost use Rattle.std.specs.Prelude.{◌≡◌};
ghost use Rattle.std.specs.List.{count_by, list_any};
ghost use Rattle.command_words.specs.Repeats;

use crate::entries::{Entry, SizeKey};
use crate::names::is_same;

/// Whether two sizes are one.
fn is_size(one: SizeKey, other: SizeKey) -> bool
    ensures { result ≡ Repeats.is_size one other }
{
    match one {
        SizeKey::Cores => matches!(other, SizeKey::Cores),
        SizeKey::Warps => matches!(other, SizeKey::Warps),
        SizeKey::Lanes => matches!(other, SizeKey::Lanes),
        SizeKey::Sets => matches!(other, SizeKey::Sets),
        SizeKey::Ways => matches!(other, SizeKey::Ways),
        SizeKey::Banks => matches!(other, SizeKey::Banks),
        SizeKey::Turns => matches!(other, SizeKey::Turns),
    }
}

/// Whether two words have one key.
fn is_same_key(one: &Entry, other: &Entry) -> bool
    ensures { result ≡ Repeats.is_same_key one.now other.now }
{
    match (one, other) {
        (Entry::Buf(_), Entry::Buf(_)) => true,
        (Entry::Do(_), Entry::Do(_)) => true,
        (Entry::Show(_), Entry::Show(_)) => true,
        (Entry::Size(key, _), Entry::Size(another, _)) => is_size(*key, *another),
        (Entry::Sched(_), Entry::Sched(_)) => true,
        (Entry::Evict(_), Entry::Evict(_)) => true,
        (Entry::Stats(_), Entry::Stats(_)) => true,
        _ => false,
    }
}

/// Whether two words give buffers of one name.
fn is_same_buffer(one: &Entry, other: &Entry) -> bool
    ensures { result ≡ Repeats.is_same_buffer one.now other.now }
{
    match (one, other) {
        (Entry::Buf(buffer), Entry::Buf(another)) => is_same(&buffer.name, &another.name),
        _ => false,
    }
}

/// How many words of its key there may be.
fn most_of(word: &Entry) -> usize
    ensures { result ≡ Repeats.most_of word.now }
{
    match word {
        Entry::Buf(_) | Entry::Do(_) | Entry::Show(_) => 64,
        _ => 1,
    }
}

/// How many of these words have the key of a word.
fn count_of(before: &[Entry], word: &Entry) -> usize
    ensures { result ≡ count_by (Repeats.is_same_key word.now) before.now }
{
    let mut count = 0;
    for earlier in before {
        if is_same_key(word, earlier) {
            count += 1;
        }
    }
    count
}

/// Whether one of these words gives a buffer of the name that a word gives.
fn is_named_before(before: &[Entry], word: &Entry) -> bool
    ensures { result ≡ list_any (Repeats.is_same_buffer word.now) before.now }
{
    before.iter().any(|earlier| is_same_buffer(word, earlier))
}

/// Whether a word is one too many behind the words before it.
pub fn is_repeated(before: &[Entry], word: &Entry) -> bool
    ensures { result ≡ Repeats.is_repeated before.now word.now }
{
    if most_of(word) <= count_of(before, word) {
        return true;
    }
    is_named_before(before, word)
}
