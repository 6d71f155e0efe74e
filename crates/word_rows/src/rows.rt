//! Rows as they are written: a head `=== WANTED`, and lines.
//!
//! - `> LINE`: a further line that is wanted.
//! - `COUNT times WORD`: so many words, in each of which the place of `#` has the word's number among them, from 0.
//! - any other line: words, with one blank between two.

use std::alloc::{AllocError, Global};

/// The words of a command line, and what is wanted of them.
#[derive(Drop)]
pub struct Row {
    /// What is wanted.
    pub wanted: String,
    /// The words.
    pub words: Vec<String>,
}

/// How many words of which pattern a line stands for, if it is of that kind.
fn pattern_of(line: &str) -> Option<(u32, &str)> {
    let (count, pattern) = line.split_once(" times ")?;
    match count.parse::<u32>() {
        Ok(count) => Some((count, pattern)),
        Err(_) => None,
    }
}

/// The word of a pattern that has this number.
fn word_of(alloc: Global, pattern: &str, number: u32) -> Result<String, AllocError> {
    match pattern.split_once('#') {
        Some((front, back)) => format!(in alloc; "{front}{number}{back}"),
        None => String::from_str(alloc, pattern),
    }
}

impl Row {
    /// A row of no words yet.
    pub fn new(alloc: Global, wanted: &str) -> Result<Row, AllocError> {
        Ok(Row {
            wanted: String::from_str(alloc, wanted)?,
            words: Vec::new(alloc),
        })
    }

    /// Goes on with so many words of a pattern.
    fn push_many(&mut self, alloc: Global, count: u32, pattern: &str) -> Result<(), AllocError> {
        for number in 0..count {
            self.words.push(word_of(alloc, pattern, number)?)?;
        }
        Ok(())
    }

    /// Goes on with the words of a line.
    fn push_words(&mut self, alloc: Global, line: &str) -> Result<(), AllocError> {
        for word in line.split(' ') {
            self.words.push(String::from_str(alloc, word)?)?;
        }
        Ok(())
    }

    /// Goes on with the next line.
    pub fn take_line(&mut self, alloc: Global, line: &str) -> Result<(), AllocError> {
        if let Some(wanted) = line.strip_prefix("> ") {
            self.wanted.push_str("\n")?;
            return self.wanted.push_str(wanted);
        }
        if let Some((count, pattern)) = pattern_of(line) {
            return self.push_many(alloc, count, pattern);
        }
        self.push_words(alloc, line)
    }
}
