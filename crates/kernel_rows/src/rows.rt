//! Rows as they are written: a head `=== WANTED`, a line `items 8 of 4` or `items 4 2 1 of 2 2 1` with the numbers of work-items and
//! those of a group in each dimension, a line `given` with the eight words of the buffer, a line `scalar` with the number for which each
//! scalar parameter stands, and the lines of the kernel's file.

use crate::bytes::COUNT;
use item_acts::Range;
use std::alloc::{AllocError, Global};

/// A kernel's file, a launch, and what is wanted of it.
#[derive(Drop)]
pub struct Row {
    /// The answer that is wanted; nothing before the first row.
    pub wanted: String,
    /// The kernel's file.
    pub text: String,
    /// The launch.
    pub range: Range,
    /// The words of the buffer before the launch.
    pub given: [u32; COUNT],
    /// The number for which each scalar parameter stands.
    pub scalar: u32,
}

/// Eight work-items in two groups.
const EIGHT: Range = Range {
    dims: 1,
    global: [8, 1, 1],
    local: [4, 1, 1],
};

impl Row {
    /// The row with this head, eight work-items in two groups, and no text yet.
    pub fn of(alloc: Global, head: &str) -> Result<Row, AllocError> {
        Ok(Row {
            wanted: String::from_str(alloc, head)?,
            text: String::new(alloc),
            range: EIGHT,
            given: [0; COUNT],
            scalar: 0,
        })
    }

    /// Goes on with the next line.
    pub fn take_line(&mut self, line: &str) -> Result<(), AllocError> {
        if let Some(words) = line.strip_prefix("items ") {
            self.range = range_of(words);
            return Ok(());
        }
        if let Some(words) = line.strip_prefix("given ") {
            self.given = words_of(words);
            return Ok(());
        }
        if let Some(word) = line.strip_prefix("scalar ") {
            self.scalar = word_of(word);
            return Ok(());
        }
        self.text.push_str(line)?;
        self.text.push_str("\n")
    }
}

/// A word as a number, with or without a sign; 0 if it is none.
fn word_of(word: &str) -> u32 {
    match word.parse::<u32>() {
        Ok(value) => value,
        Err(_) => u32::from_le_bytes(word.parse::<i32>().unwrap_or(0).to_le_bytes()),
    }
}

/// The first eight words of a line.
fn words_of(line: &str) -> [u32; COUNT] {
    let mut words = [0; COUNT];
    for (place, word) in words.iter_mut().zip(line.split_whitespace()) {
        *place = word_of(word);
    }
    words
}

/// Up to three sizes, and 1 for each that is not there.
fn sizes_of(line: &str) -> [u32; 3] {
    let mut sizes = [1; 3];
    for (place, word) in sizes.iter_mut().zip(line.split_whitespace()) {
        *place = word_of(word);
    }
    sizes
}

/// The launch of a line `8 of 4`.
fn range_of(line: &str) -> Range {
    let (global, local) = line.split_once(" of ").unwrap_or((line, "1"));
    let dims = match global.split_whitespace().count() {
        0 | 1 => 1,
        2 => 2,
        _ => 3,
    };
    Range {
        dims,
        global: sizes_of(global),
        local: sizes_of(local),
    }
}
