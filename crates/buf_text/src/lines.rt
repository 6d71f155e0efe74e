//! The lines by which a buffer is printed: its name, type and number of elements, and then its elements, 16 on a line.
ghost use Rattle.std.specs.Prelude.{◌≡◌, ◌+◌, ◌-◌, ◌*◌, ◌++◌, ◌<◌, ◌≤◌, min, length, if◌then◌else◌, is_some, option_map, IfOk, MatchOption, OnOk, OnErr};
ghost use Rattle.std.specs.Fmt.{decimal, signed_decimal};
ghost use Rattle.vx_base.specs.Values.{elem_bytes, signed_of};
ghost use Rattle.buf_text.specs.Lines.{behind_text, element_in, element_text, has_sign, head_text, line_of, rest_text, row_text, value_text};

use crate::word_bytes::byte_at;
use itoa::Buffer;
use std::alloc::Global;
use vx_base::{Elem, Memory, Size, Text, WordList, fit, get_le};

// How many elements a line has.
const ROW: u32 = 16;

/// The lines of a buffer, one after another.
#[derive(Debug, Drop)]
pub struct BufLines {
    /// The name of the buffer.
    pub name: Text,
    /// The type of its elements.
    pub elem: Elem,
    /// How many there are.
    pub count: u32,
    /// Its first byte in the words that hold it.
    pub at: u32,
    /// How many lines were given so far.
    pub given: u32,
}

/// Whether numbers of this type have a sign.
fn is_signed(elem: Elem) -> bool
    ensures { result ≡ has_sign elem }
{
    match elem {
        Elem::Char | Elem::Short | Elem::Int => true,
        Elem::Uchar | Elem::Ushort | Elem::Uint => false,
    }
}

/// The element that begins at a byte of some words.
fn element(words: &[u32], elem: Elem, place: usize) -> u32
    requires { place + elem_bytes elem ≤ 4 * length words.now }
    ensures { result ≡ element_in words.now elem place }
{
    match elem.size() {
        Size::One => u32::from(byte_at(words, place)),
        Size::Two => get_le(
            &[byte_at(words, place), byte_at(words, place + 1)],
            0,
            Size::Two,
        ),
        Size::Four => get_le(
            &[
                byte_at(words, place),
                byte_at(words, place + 1),
                byte_at(words, place + 2),
                byte_at(words, place + 3),
            ],
            0,
            Size::Four,
        ),
    }
}

/// The first byte of an element of a buffer that begins at byte `at`.
fn place_of(elem: Elem, at: u32, number: u32) -> usize
    ensures { result ≡ at + elem_bytes elem * number }
{
    let before = number as usize;
    let many = match elem {
        Elem::Char | Elem::Uchar => before,
        Elem::Short | Elem::Ushort => 2 * before,
        Elem::Int | Elem::Uint => 4 * before,
    };
    at as usize + many
}

fn push_signed(text: &mut Vec<u8>, word: u32) -> Result<(), Memory>
    ensures { OnOk result (text.new.items ≡ text.old.items ++ signed_decimal (signed_of word)) }
{
    let mut digits = Buffer::new();
    text.extend_from_slice(digits.format(word.cast_signed()).as_bytes())?;
    Ok(())
}

fn push_unsigned(text: &mut Vec<u8>, word: u32) -> Result<(), Memory>
    ensures { OnOk result (text.new.items ≡ text.old.items ++ decimal word) }
{
    let mut digits = Buffer::new();
    text.extend_from_slice(digits.format(word).as_bytes())?;
    Ok(())
}

fn push_value(text: &mut Vec<u8>, elem: Elem, word: u32) -> Result<(), Memory>
    ensures { OnOk result (text.new.items ≡ text.old.items ++ value_text elem word) }
{
    let value = fit(elem, word);
    if is_signed(elem) {
        push_signed(text, value)
    } else {
        push_unsigned(text, value)
    }
}

/// The number of the first element on a line behind the first line, and None where no element is left for it.
fn first_on_line(line: u32, count: u32) -> Option<u32>
    requires { 0 < line }
    ensures { MatchOption result (count ≤ 16 * (line - 1))
        (λ first. (first < count) × (first ≡ 16 * (line - 1))) }
{
    let first = ROW as u64 * u64::from(line - 1);
    if first < u64::from(count) {
        Some(first as u32)
    } else {
        None
    }
}

impl BufLines {
    /// The lines of a buffer with this name, type and number of elements, which begins at byte `at` of some words.
    ///
    /// # Errors
    ///
    /// `Memory` where the name finds no room.
    pub fn new(
        alloc: Global,
        name: &[u8],
        elem: Elem,
        count: u32,
        at: u32,
    ) -> Result<BufLines, Memory>
        ensures { IfOk result (λ lines. (lines.name ≡ name.now) × (lines.elem ≡ elem) × (lines.count ≡ count)
            × (lines.at ≡ at) × (lines.given ≡ 0)) }
    {
        let items = Vec::from_slice(alloc, name)?;
        Ok(BufLines {
            name: Text { items },
            elem,
            count,
            at,
            given: 0,
        })
    }

    /// The element with a number.
    #[tactic(auto, using(crate::proofs::LineLaws::room))]
    fn push_element(&self, text: &mut Vec<u8>, words: &[u32], number: u32) -> Result<(), Memory>
        requires within { number < self.now.count }
        requires room { self.now.at + elem_bytes self.now.elem * self.now.count ≤ 4 * length words.now }
        ensures { OnOk result (text.new.items
            ≡ text.old.items ++ element_text words.now self.now.elem self.now.at number) }
    {
        let place = place_of(self.elem, self.at, number);
        push_value(text, self.elem, element(words, self.elem, place))
    }

    /// The same behind a space.
    fn push_behind(&self, text: &mut Vec<u8>, words: &[u32], number: u32) -> Result<(), Memory>
        requires within { number < self.now.count }
        requires room { self.now.at + elem_bytes self.now.elem * self.now.count ≤ 4 * length words.now }
        ensures { OnOk result (text.new.items
            ≡ text.old.items ++ behind_text words.now self.now.elem self.now.at number) }
    {
        text.push(b' ')?;
        self.push_element(text, words, number)
    }

    /// The elements of a line behind its first.
    fn push_rest(
        &self,
        text: &mut Vec<u8>,
        words: &[u32],
        first: u32,
        many: u32,
    ) -> Result<(), Memory>
        requires some { 0 < many }
        requires within { first + many ≤ self.now.count }
        requires room { self.now.at + elem_bytes self.now.elem * self.now.count ≤ 4 * length words.now }
        ensures { OnOk result (text.new.items
            ≡ text.old.items ++ rest_text words.now self.now.elem self.now.at first many) }
    {
        for step in 1..many {
            self.push_behind(text, words, first + step)?;
        }
        Ok(())
    }

    /// A line of elements, from the one with number `first` on.
    fn row(&self, alloc: Global, words: &[u32], first: u32) -> Result<Vec<u8>, Memory>
        requires within { first < self.now.count }
        requires room { self.now.at + elem_bytes self.now.elem * self.now.count ≤ 4 * length words.now }
        ensures { IfOk result (λ text. text.items
            ≡ row_text words.now self.now.elem self.now.at first (min 16 (self.now.count - first))) }
    {
        let mut text = Vec::new(alloc);
        self.push_element(&mut text, words, first)?;
        self.push_rest(&mut text, words, first, ROW.min(self.count - first))?;
        text.push(b'\n')?;
        Ok(text)
    }

    /// The first line.
    fn head(&self, alloc: Global) -> Result<Vec<u8>, Memory>
        ensures { IfOk result (λ text. text.items
            ≡ head_text self.now.name self.now.elem self.now.count) }
    {
        let elem = self.elem;
        let count = self.count;
        let mut text = Vec::from_slice(alloc, self.name.items.as_slice())?;
        let behind = format!(in alloc; " {elem} {count}\n")?;
        text.extend_from_slice(behind.as_bytes())?;
        Ok(text)
    }

    /// The line that comes next, and None where all lines were given.
    fn line(&self, alloc: Global, words: &[u32]) -> Result<Option<Vec<u8>>, Memory>
        requires room { self.now.at + elem_bytes self.now.elem * self.now.count ≤ 4 * length words.now }
        ensures { IfOk result (λ line. option_map (λ text. text.items) line ≡ line_of
            self.now.name self.now.elem self.now.count self.now.at words.now self.now.given) }
    {
        if self.given == 0 {
            return Ok(Some(self.head(alloc)?));
        }
        let Some(first) = first_on_line(self.given, self.count) else {
            return Ok(None);
        };
        Ok(Some(self.row(alloc, words, first)?))
    }

    /// The next line, with the newline at its end, and None exactly behind the last.
    ///
    /// # Errors
    ///
    /// `Memory` where the line finds no room; the lines are then as before.
    pub fn next(&mut self, alloc: Global, words: &WordList) -> Result<Option<Text>, Memory>
        requires room { self.old.at + elem_bytes self.old.elem * self.old.count ≤ 4 * length words.now }
        ensures line { IfOk result (λ line. line ≡ line_of
            self.old.name self.old.elem self.old.count self.old.at words.now self.old.given) }
        ensures given { IfOk result (λ line. self.new.given ≡ self.old.given + (if is_some line then 1 else 0)) }
        ensures unchanged { OnErr result (self.new.given ≡ self.old.given) }
        ensures same { (self.new.name ≡ self.old.name) × (self.new.elem ≡ self.old.elem)
            × (self.new.count ≡ self.old.count) × (self.new.at ≡ self.old.at) }
    {
        let Some(items) = self.line(alloc, words.items.as_slice())? else {
            return Ok(None);
        };
        self.given += 1;
        Ok(Some(Text { items }))
    }
}
