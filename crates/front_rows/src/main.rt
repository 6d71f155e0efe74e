//! The program `front_rows`: reads rows, each a text and what the front of the compiler is to say of it, and prints each row of
//! which it says something else, and at last how many rows there were. Read `rows` for how rows are written, and `answers` for what
//! is asked of a text.
#![tactic(auto)]

mod answers;
mod rows;
mod tokens;

use rows::Row;
use std::alloc::Global;
use std::io;

/// Prints a row whose text is answered with something else than it is to be. How many rows this was: one, or none before the first.
fn tell(rt: &HostRuntime, alloc: Global, row: &Row) -> io::Result<u64> {
    if row.ask.is_empty() {
        return Ok(0);
    }
    let said = answers::answer(
        alloc,
        row.ask.as_str(),
        row.wanted.as_str(),
        row.text.as_str(),
    )?;
    if said.as_str() != row.wanted.as_str() {
        println!(rt; "{} {}: {said}", row.ask, row.wanted)?;
    }
    Ok(1)
}

fn main(rt: HostRuntime) -> io::Result<()> {
    let alloc = rt.alloc();
    let mut row = Row::new(alloc);
    let mut count = 0_u64;
    for line in rt.lines(alloc) {
        let line = line?;
        match line.as_str().strip_prefix("=== ") {
            Some(head) => {
                count = count.saturating_add(tell(&rt, alloc, &row)?);
                row = Row::of(alloc, head)?;
            }
            None => row.push_line(line.as_str())?,
        }
    }
    count = count.saturating_add(tell(&rt, alloc, &row)?);
    println!(rt; "{count} rows")
}
