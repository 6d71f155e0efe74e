//! Rows as they are written: a head `=== ASK WANTED`, and the lines of a text.
//!
//! A line `%COUNT PIECE` stands for the piece that often, and lines of this kind follow one another without a line's end.

use std::alloc::{AllocError, Global};

/// What is asked of a text, and what is wanted.
#[derive(Drop)]
pub struct Row {
    /// What is asked; nothing before the first row.
    pub ask: String,
    /// The answer that is wanted.
    pub wanted: String,
    /// The text.
    pub text: String,
    /// The last line, or None before the first.
    last: Option<Line>,
}

/// How a line of a text is written.
#[derive(Clone, Copy, PartialEq, Eq)]
enum Line {
    /// As it is.
    Plain,
    /// As a piece and how often it stands.
    Pieces,
}

impl Row {
    /// What stands before the first row.
    pub fn new(alloc: Global) -> Row {
        Row {
            ask: String::new(alloc),
            wanted: String::new(alloc),
            text: String::new(alloc),
            last: None,
        }
    }

    /// The row with this head, and no text yet.
    pub fn of(alloc: Global, head: &str) -> Result<Row, AllocError> {
        let (ask, wanted) = head.split_once(' ').unwrap_or((head, ""));
        Ok(Row {
            ask: String::from_str(alloc, ask)?,
            wanted: String::from_str(alloc, wanted)?,
            text: String::new(alloc),
            last: None,
        })
    }

    /// Goes on with a line that is written in this way.
    fn begin_line(&mut self, line: Line) -> Result<(), AllocError> {
        let joined = line == Line::Pieces && self.last == Some(Line::Pieces);
        let first = self.last.is_none();
        self.last = Some(line);
        if first || joined {
            return Ok(());
        }
        self.text.push_str("\n")
    }

    /// Goes on with the next line of the text.
    pub fn push_line(&mut self, line: &str) -> Result<(), AllocError> {
        match pieces_of(line) {
            Some((count, piece)) => {
                self.begin_line(Line::Pieces)?;
                self.push_pieces(count, piece)
            }
            None => {
                self.begin_line(Line::Plain)?;
                self.text.push_str(line)
            }
        }
    }

    /// Goes on with a piece this often.
    fn push_pieces(&mut self, count: usize, piece: &str) -> Result<(), AllocError> {
        for _ in 0..count {
            self.text.push_str(piece)?;
        }
        Ok(())
    }
}

/// How often which piece stands in a line, where it is of that kind.
fn pieces_of(line: &str) -> Option<(usize, &str)> {
    let (count, piece) = line.strip_prefix("%")?.split_once(' ')?;
    match count.parse::<usize>() {
        Ok(count) => Some((count, piece)),
        Err(_) => None,
    }
}
