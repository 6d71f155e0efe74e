//! The program `kernel_rows`: reads rows, each a kernel with a launch, the words of its buffer before it, and those after it or the
//! fault that comes, and prints each row after which something else stands, or in which two forms of the kernel ask for different
//! actions; at last how many rows there were. Read `rows` for how rows are written, `forms` for the forms, and `runs` for how the
//! work-items of one are run.
#![tactic(auto)]

mod blocks;
mod bytes;
mod cores;
mod forms;
mod lanes;
mod marks;
mod rows;
mod runs;
mod words;

use rows::Row;
use std::alloc::Global;
use std::io;

/// Prints a row that comes to something else than it is to. How many rows this was: one, or none before the first.
fn tell(rt: &HostRuntime, alloc: Global, row: &Row) -> io::Result<u64> {
    if row.wanted.is_empty() {
        return Ok(0);
    }
    let Ok(said) = forms::answer(alloc, row) else {
        println!(rt; "{}: memory ran out", row.wanted)?;
        return Ok(1);
    };
    if said.as_str() != row.wanted.as_str() {
        println!(rt; "{}: {said}", row.wanted)?;
    }
    Ok(1)
}

fn main(rt: HostRuntime) -> io::Result<()> {
    let alloc = rt.alloc();
    let mut row = Row::of(alloc, "")?;
    let mut count = 0_u64;
    for line in rt.lines(alloc) {
        let line = line?;
        match line.as_str().strip_prefix("=== ") {
            Some(head) => {
                count = count.saturating_add(tell(&rt, alloc, &row)?);
                row = Row::of(alloc, head)?;
            }
            None => row.take_line(line.as_str())?,
        }
    }
    count = count.saturating_add(tell(&rt, alloc, &row)?);
    println!(rt; "{count} rows")
}
