//! The words behind the file, one at a time.
ghost use Rattle.std.specs.Prelude.{◌≡◌, ◌≢◌, ℕ, ◌<◌, ◌≤◌, List, [], ◌∷◌, ◌++◌, map, codes, ◌==◌, IfOk, MatchOption, MatchResult};
ghost use Rattle.std.specs.List.{AllByRecursion, join_with_byte, slice_split};
ghost use Rattle.std.specs.Fmt.{decimal};
ghost use Rattle.vx_words.specs.Names;
ghost use Rattle.vx_words.specs.Names.{IsName};
ghost use Rattle.vx_words.specs.Words.{Further, word_text, origin_text, arguments_text, IsOrigin};
ghost use Rattle.vx_words.specs.WordForms.{Finds, IsBadForm, Lacks, CutsAt, IsFurther, further_of};

use crate::run_words::{BufFrom, BufWord};
use crate::usage::{UsageFault, UsageKind};
use decimal_text::decimal_number;
use std::alloc::{AllocError, Global};
use vx_base::{ListOf, Text};

/// A word `do=ENTRY/N/N..`: a launch of a kernel.
#[derive(Debug, Drop)]
pub struct DoWord {
    /// The kernel's name.
    pub entry: Text,
    /// How many work-items there are.
    pub items: u32,
    /// The names of the arguments.
    pub names: ListOf<Text>,
}

/// A word behind the file.
#[derive(Debug, Drop)]
pub enum FurtherWord {
    /// A buffer.
    Buf(BufWord),
    /// A launch.
    Do(DoWord),
    /// The name of a buffer to print.
    Print(Text),
}

/// The fault of words that do not have the form of `run`.
pub const BAD_FORM: UsageFault = UsageFault::Usage {
    word: 0,
    kind: UsageKind::Form,
};

/// The most work-items that a launch may have.
const MOST_ITEMS: u32 = 32;

/// The most elements that a buffer of zeros may have.
const MOST_ELEMENTS: u32 = 4_194_304;

/// A number in a range, from its decimal digits.
fn read_number(text: &str, least: u32, most: u32) -> Result<u32, UsageFault>
    ensures { Finds result (λ n. (least ≤ n) × (n ≤ most) × (text.now ≡ decimal n)) }
{
    match decimal_number(text.as_bytes()) {
        Some(number) if least <= number && number <= most => Ok(number),
        _ => Err(BAD_FORM),
    }
}

/// The bytes of a text.
pub fn text_of(alloc: Global, text: &str) -> Result<Text, UsageFault>
    ensures { Finds result (λ bytes. text.now ≡ bytes) }
{
    let items = Vec::from_slice(alloc, text.as_bytes())?;
    Ok(ListOf { items })
}

/// Whether a byte may begin a name.
fn begins_name(byte: u8) -> bool
    ensures { result ≡ Names.begins_name byte }
{
    byte == b'_' || byte.is_ascii_alphabetic()
}

/// Whether a byte may stand in a name.
fn is_name_byte(byte: u8) -> bool
    ensures { result ≡ Names.is_name_byte byte }
{
    begins_name(byte) || byte.is_ascii_digit()
}

/// Whether a text is a name: a letter or `_`, and then letters, digits and `_`.
pub fn is_name(text: &[u8]) -> bool
    ensures { result ≡ Names.is_name text.now }
{
    match text {
        [] => false,
        [first, rest @ ..] => begins_name(*first) && rest.iter().all(|byte| is_name_byte(*byte)),
    }
}

/// A name.
fn read_name(alloc: Global, text: &str) -> Result<Text, UsageFault>
    ensures { Finds result (λ name. IsName name × (text.now ≡ name)) }
{
    if !is_name(text.as_bytes()) {
        return Err(BAD_FORM);
    }
    text_of(alloc, text)
}

/// The text before the first place of a mark, and the text behind it.
fn cut(text: &str, mark: char) -> Option<(&str, &str)>
    requires { mark < 128 }
    ensures { MatchOption result (Lacks mark text.now)
        (λ parts. CutsAt mark text.now parts.0.now parts.1.now) }
{
    text.split_once(mark)
}

/// The text behind a front.
fn behind<'a>(text: &'a str, front: &str) -> Option<&'a str>
    ensures { MatchOption result ((rest : List ℕ) → text.now ≢ front.now ++ rest)
        (λ rest. text.now ≡ front.now ++ rest.now) }
{
    text.strip_prefix(front)
}

/// Where the bytes of a buffer come from: `in:PATH` or `zero:COUNT`.
fn read_origin(alloc: Global, text: &str) -> Result<BufFrom, UsageFault>
    ensures { Finds result (λ from. IsOrigin from × (text.now ≡ origin_text from)) }
{
    if let Some(path) = behind(text, "in:") {
        if path.is_empty() {
            return Err(BAD_FORM);
        }
        return Ok(BufFrom::File(text_of(alloc, path)?));
    }
    let Some(count) = behind(text, "zero:") else {
        return Err(BAD_FORM);
    };
    Ok(BufFrom::Zero(read_number(count, 0, MOST_ELEMENTS)?))
}

/// A buffer, behind `buf=`.
fn read_buffer(alloc: Global, text: &str) -> Result<BufWord, UsageFault>
    ensures { Finds result (λ b. IsName b.name × IsOrigin b.from
        × (text.now ≡ b.name ++ codes ":int:" ++ origin_text b.from)) }
{
    let Some((name, rest)) = cut(text, ':') else {
        return Err(BAD_FORM);
    };
    let Some(origin) = behind(rest, "int:") else {
        return Err(BAD_FORM);
    };
    let name = read_name(alloc, name)?;
    let from = read_origin(alloc, origin)?;
    Ok(BufWord { name, from })
}

/// The parts of a text between its commas.
fn comma_parts(alloc: Global, text: &str) -> Result<Vec<&str>, AllocError>
    ensures { IfOk result (λ parts. map (λ part. part.now) parts.items ≡ slice_split (λ b. b == 44) text.now) }
{
    text.split(',').collect(alloc)
}

/// Each of some names.
fn read_each(alloc: Global, parts: &[&str]) -> Result<ListOf<Text>, UsageFault>
    ensures { Finds result (λ names. AllByRecursion IsName names
        × (map (λ part. part.now) parts.now ≡ names)) }
{
    let mut items = Vec::new(alloc);
    for part in parts {
        items.push(read_name(alloc, part)?)?;
    }
    Ok(ListOf { items })
}

/// Names with commas between them.
fn read_names(alloc: Global, text: &str) -> Result<ListOf<Text>, UsageFault>
    ensures { Finds result (λ names. AllByRecursion IsName names × (names ≢ [])
        × (text.now ≡ join_with_byte 44 names)) }
{
    let parts = comma_parts(alloc, text)?;
    read_each(alloc, parts.as_slice())
}

/// The arguments of a launch: nothing, or a slash and names.
fn read_arguments(alloc: Global, text: &str) -> Result<ListOf<Text>, UsageFault>
    ensures { Finds result (λ names. AllByRecursion IsName names × (text.now ≡ arguments_text names)) }
{
    if text.is_empty() {
        return Ok(ListOf {
            items: Vec::new(alloc),
        });
    }
    let Some(names) = behind(text, "/") else {
        return Err(BAD_FORM);
    };
    read_names(alloc, names)
}

/// A launch, behind `do=`.
fn read_launch(alloc: Global, text: &str) -> Result<DoWord, UsageFault>
    ensures { Finds result (λ d. IsName d.entry × (1 ≤ d.items) × (d.items ≤ 32) × AllByRecursion IsName d.names
        × (text.now ≡ d.entry ++ codes "/" ++ decimal d.items ++ codes "/" ++ decimal d.items ++ arguments_text d.names)) }
{
    let Some((entry, rest)) = cut(text, '/') else {
        return Err(BAD_FORM);
    };
    let Some((count, rest)) = cut(rest, '/') else {
        return Err(BAD_FORM);
    };
    let Some(arguments) = behind(rest, count) else {
        return Err(BAD_FORM);
    };
    let entry = read_name(alloc, entry)?;
    let items = read_number(count, 1, MOST_ITEMS)?;
    let names = read_arguments(alloc, arguments)?;
    Ok(DoWord {
        entry,
        items,
        names,
    })
}

/// A word behind the file.
pub fn read_further(alloc: Global, word: &str) -> Result<FurtherWord, UsageFault>
    ensures { MatchResult result
        (λ f. IsFurther (further_of f) × (word.now ≡ word_text (further_of f)))
        (λ fault. IsBadForm fault ((f : Further) → IsFurther f → word.now ≢ word_text f)) }
{
    if let Some(rest) = behind(word, "buf=") {
        return Ok(FurtherWord::Buf(read_buffer(alloc, rest)?));
    }
    if let Some(rest) = behind(word, "do=") {
        return Ok(FurtherWord::Do(read_launch(alloc, rest)?));
    }
    let Some(name) = behind(word, "show=") else {
        return Err(BAD_FORM);
    };
    Ok(FurtherWord::Print(read_name(alloc, name)?))
}
