//! Rows as they are written: a head `=== STATUS`, and lines whose first word says what they are.
//!
//! - `words`: the words of the call.
//! - `text NAME`: a file, whose lines are those that begin with `| ` and follow; the last one has no end.
//! - `ints NAME`: a file of 32-bit words, which follow in the line.
//! - `> `: a line that is to be written; `. `: the front of a line that is to be written last.
//! - `counts`: the words that are written are told as assembly by `dis`, and in place of them stands how many of its lines begin so.
//! - `read fails` and `write fails`: the numbers of the calls that fail, from 0.
//! - `bytes`: how many bytes a write takes at most, in place of 4096.

use std::alloc::{AllocError, Global};
use vx_base::{ListOf, Text};
use vx_world::{Entry, EntryList};

/// A call, and the answer that is wanted.
#[derive(Drop)]
pub struct Row {
    /// The status, and on the next lines what is to be written.
    pub wanted: String,
    /// The words of the call.
    pub words: Vec<String>,
    /// The files.
    entries: Vec<Entry>,
    /// The numbers of the reads that fail.
    pub failing_reads: Vec<u64>,
    /// The numbers of the writes that fail.
    pub failing_writes: Vec<u64>,
    /// How many bytes a write takes at most.
    pub most: usize,
    /// How the lines of assembly begin that are counted; nothing where none are.
    pub counts: String,
}

/// The rest of a line after a word and a blank.
fn after<'a>(line: &'a str, word: &str) -> Option<&'a str> {
    line.strip_prefix(word)?.strip_prefix(" ")
}

/// A word as a number, with or without a sign; 0 if it is none.
fn word_of(word: &str) -> u32 {
    match word.parse::<u32>() {
        Ok(value) => value,
        Err(_) => u32::from_le_bytes(word.parse::<i32>().unwrap_or(0).to_le_bytes()),
    }
}

/// Words as numbers.
fn numbers_of(alloc: Global, words: &str) -> Result<Vec<u64>, AllocError> {
    let mut numbers = Vec::new(alloc);
    for word in words.split_whitespace() {
        numbers.push(word.parse::<u64>().unwrap_or(0))?;
    }
    Ok(numbers)
}

/// The words of a line.
fn words_of(alloc: Global, line: &str) -> Result<Vec<String>, AllocError> {
    let mut words = Vec::new(alloc);
    for word in line.split_whitespace() {
        words.push(String::from_str(alloc, word)?)?;
    }
    Ok(words)
}

/// A text of these bytes.
fn text_of(alloc: Global, bytes: &[u8]) -> Result<Text, AllocError> {
    Ok(Text {
        items: Vec::from_slice(alloc, bytes)?,
    })
}

/// The bytes of 32-bit words, least first.
fn bytes_of(alloc: Global, words: &str) -> Result<Vec<u8>, AllocError> {
    let mut bytes = Vec::new(alloc);
    for word in words.split_whitespace() {
        bytes.extend_from_slice(&word_of(word).to_le_bytes())?;
    }
    Ok(bytes)
}

impl Row {
    /// What stands before the first row.
    pub fn new(alloc: Global) -> Row {
        Row {
            wanted: String::new(alloc),
            words: Vec::new(alloc),
            entries: Vec::new(alloc),
            failing_reads: Vec::new(alloc),
            failing_writes: Vec::new(alloc),
            most: 4096,
            counts: String::new(alloc),
        }
    }

    /// Goes on with a line that is to be written.
    pub fn want(&mut self, line: &str) -> Result<(), AllocError> {
        self.wanted.push_str(line)?;
        self.wanted.push_str("\n")
    }

    /// The files, which the row then has no more.
    pub fn take_entries(&mut self, alloc: Global) -> EntryList {
        let items = std::mem::replace(&mut self.entries, Vec::new(alloc));
        ListOf { items }
    }

    /// Goes on with a file of these bytes.
    pub fn push_file(&mut self, alloc: Global, name: &str, bytes: &[u8]) -> Result<(), AllocError> {
        let name = text_of(alloc, name.as_bytes())?;
        let bytes = text_of(alloc, bytes)?;
        self.entries.push(Entry { name, bytes })?;
        Ok(())
    }

    /// Goes on with a line of the last file.
    fn push_to_file(&mut self, line: &str) -> Result<(), AllocError> {
        if let Some(entry) = self.entries.last_mut() {
            if !entry.bytes.items.is_empty() {
                entry.bytes.items.push(b'\n')?;
            }
            entry.bytes.items.extend_from_slice(line.as_bytes())?;
        }
        Ok(())
    }

    /// Goes on with the next line of the call.
    fn take_call(&mut self, alloc: Global, line: &str) -> Result<(), AllocError> {
        if let Some(words) = after(line, "words") {
            self.words = words_of(alloc, words)?;
        }
        if let Some(numbers) = after(line, "read fails") {
            self.failing_reads = numbers_of(alloc, numbers)?;
        }
        if let Some(numbers) = after(line, "write fails") {
            self.failing_writes = numbers_of(alloc, numbers)?;
        }
        if let Some(front) = after(line, "counts") {
            self.counts = String::from_str(alloc, front)?;
        }
        if let Some(most) = after(line, "bytes") {
            self.most = most.parse::<usize>().unwrap_or(4096);
        }
        Ok(())
    }

    /// Goes on with the next line of a file.
    fn take_file(&mut self, alloc: Global, line: &str) -> Result<(), AllocError> {
        if let Some(name) = after(line, "text") {
            return self.push_file(alloc, name, b"");
        }
        if let Some(part) = after(line, "|") {
            return self.push_to_file(part);
        }
        if let Some((name, words)) = after(line, "ints").and_then(|rest| rest.split_once(' ')) {
            let bytes = bytes_of(alloc, words)?;
            return self.push_file(alloc, name, bytes.as_slice());
        }
        Ok(())
    }

    /// Goes on with the next line.
    pub fn take_line(&mut self, alloc: Global, line: &str) -> Result<(), AllocError> {
        if let Some(written) = after(line, ">") {
            return self.want(written);
        }
        if let Some(front) = after(line, ".") {
            return self.wanted.push_str(front);
        }
        self.take_call(alloc, line)?;
        self.take_file(alloc, line)
    }
}
