//! The program `word_rows`: reads rows, each the words of a command line and what is to be read of them, prints each row of which
//! something else is read, and at last how many rows there were. Read `rows` for how rows are written, and `told` for how what was
//! read is told.
#![tactic(auto)]

mod rows;
mod told;

use command_words::read_command_line;
use rows::Row;
use std::alloc::{AllocError, Global};
use std::io;

/// The next row after a line, if the line is its head; else the last row goes on with it.
fn take_line(rows: &mut Vec<Row>, alloc: Global, line: &str) -> Result<(), AllocError> {
    if let Some(wanted) = line.strip_prefix("=== ") {
        rows.push(Row::new(alloc, wanted)?)?;
        return Ok(());
    }
    match rows.last_mut() {
        Some(row) => row.take_line(alloc, line),
        None => Ok(()),
    }
}

/// What is read of a row's words, as it is told.
fn answer(alloc: Global, row: &Row) -> Result<String, AllocError> {
    match read_command_line(alloc, row.words.as_slice()) {
        Ok(command) => told::command_text(alloc, &command),
        Err(fault) => format!(in alloc; "{fault}"),
    }
}

fn main(rt: HostRuntime) -> io::Result<()> {
    let alloc = rt.alloc();
    let mut rows = Vec::new(alloc);
    for line in rt.lines(alloc) {
        let line = line?;
        take_line(&mut rows, alloc, line.as_str())?;
    }
    for row in rows.iter() {
        let said = answer(alloc, row)?;
        if said.as_str() != row.wanted.as_str() {
            println!(rt; "wanted {}\nsaid {said}", row.wanted)?;
        }
    }
    println!(rt; "{} rows", rows.len())
}
