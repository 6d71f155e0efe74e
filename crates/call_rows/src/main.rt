//! The program `call_rows`: reads rows, each the words of a call of `vx` with files, and the status and the text that it is to answer,
//! and prints each row that is answered otherwise; at last how many rows there were. Read `rows` for how rows are written.
#![tactic(auto)]

mod rows;

use rows::Row;
use std::alloc::{AllocError, Global};
use std::io;
use std::thread::Threads;
use vx_run::vx;
use vx_world::{CallList, MemFiles, MemOut, NoGate};

/// Calls of these numbers.
fn calls_of(alloc: Global, numbers: &[u64]) -> Result<CallList, AllocError> {
    Ok(CallList {
        items: Vec::from_slice(alloc, numbers)?,
    })
}

/// Makes a row's call, which writes to `written`, and gives its status.
fn call<R: Threads + Sync>(
    rt: &R,
    alloc: Global,
    row: &mut Row,
    written: &mut String,
) -> Result<u8, AllocError> {
    let entries = row.take_entries(alloc);
    let mut files = MemFiles::new(entries, calls_of(alloc, row.failing_reads.as_slice())?);
    let failing = calls_of(alloc, row.failing_writes.as_slice())?;
    let mut out = MemOut::new(alloc, failing, row.most.max(1));
    let report = vx(rt, alloc, &row.words, &mut files, &mut out, &NoGate);
    written.push_str(str::from_utf8(out.written()).unwrap_or("?"))?;
    Ok(report.status)
}

/// How many lines of a text begin so.
fn lines_with(text: &[u8], front: &[u8]) -> u32 {
    let mut count = 0u32;
    for line in text.split(|byte| *byte == b'\n') {
        if line.starts_with(front) {
            count = count.saturating_add(1);
        }
    }
    count
}

/// How many lines of the assembly that `dis` makes of words begin so.
fn counted<R: Threads + Sync>(
    rt: &R,
    alloc: Global,
    words: &str,
    front: &str,
) -> Result<u32, AllocError> {
    let mut row = Row::new(alloc);
    row.take_line(alloc, "words dis h")?;
    row.push_file(alloc, "h", words.as_bytes())?;
    let mut assembly = String::new(alloc);
    call(rt, alloc, &mut row, &mut assembly)?;
    Ok(lines_with(assembly.as_bytes(), front.as_bytes()))
}

/// What a row's call answers: its status, and on the next lines what it wrote, or what is counted of it.
fn answer<R: Threads + Sync>(rt: &R, alloc: Global, row: &mut Row) -> Result<String, AllocError> {
    let mut written = String::new(alloc);
    let status = call(rt, alloc, row, &mut written)?;
    if row.counts.is_empty() {
        return format!(in alloc; "{status}\n{written}");
    }
    let count = counted(rt, alloc, written.as_str(), row.counts.as_str())?;
    format!(in alloc; "{status}\n{count}\n")
}

/// The next row after a line, if the line is its head; else the last row goes on with it.
fn take_line(rows: &mut Vec<Row>, alloc: Global, line: &str) -> Result<(), AllocError> {
    if let Some(status) = line.strip_prefix("=== ") {
        let mut row = Row::new(alloc);
        row.want(status)?;
        rows.push(row)?;
        return Ok(());
    }
    match rows.last_mut() {
        Some(row) => row.take_line(alloc, line),
        None => Ok(()),
    }
}

fn main(rt: HostRuntime) -> io::Result<()> {
    let alloc = rt.alloc();
    let mut rows = Vec::new(alloc);
    for line in rt.lines(alloc) {
        let line = line?;
        take_line(&mut rows, alloc, line.as_str())?;
    }
    for row in rows.iter_mut() {
        let said = answer(&rt, alloc, row)?;
        if said.as_str() != row.wanted.as_str() {
            println!(rt; "wanted {}said {said}", row.wanted)?;
        }
    }
    println!(rt; "{} rows", rows.len())
}
