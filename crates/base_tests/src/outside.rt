//! Files and sinks, in memory and of the system.
use std::alloc::{AllocError, Global};
use std::io::{self, Write};
use std::test::Fail;
use std::{env, fs};
use vx_base::Text;
use vx_world::{
    CallList, Entry, EntryList, Files, FolderFiles, Gate, MemFiles, MemOut, NoGate, Out, OutFault,
    ReadFault, StreamOut, SureFiles,
};

fn make_text(alloc: Global, bytes: &[u8]) -> Result<Text, AllocError> {
    Ok(Text {
        items: Vec::from_slice(alloc, bytes)?,
    })
}

fn make_calls(alloc: Global, numbers: &[u64]) -> Result<CallList, AllocError> {
    Ok(CallList {
        items: Vec::from_slice(alloc, numbers)?,
    })
}

// Files with two names, of which one stands twice.
fn make_entries(alloc: Global) -> Result<EntryList, AllocError> {
    let mut items = Vec::new(alloc);
    for (name, bytes) in [("a", "first"), ("b", "second"), ("a", "third")] {
        items.push(Entry {
            name: make_text(alloc, name.as_bytes())?,
            bytes: make_text(alloc, bytes.as_bytes())?,
        })?;
    }
    Ok(EntryList { items })
}

// A read through the bound alone.
fn read_through<F: Files>(
    alloc: Global,
    files: &mut F,
    name: &[u8],
    most: usize,
) -> Result<Vec<u8>, ReadFault> {
    files.read(alloc, name, most)
}

// Writes a text whole, through the bound alone.
fn write_all<W: Out>(out: &mut W, text: &[u8]) -> Result<(), OutFault> {
    let mut rest = text;
    for _ in 0..text.len() {
        if rest.is_empty() {
            return Ok(());
        }
        match out.write(rest) {
            Ok(count) => rest = rest.get(count..).unwrap_or(&[]),
            Err(fault) => return Err(fault),
        }
    }
    Ok(())
}

fn pass_through<G: Gate + Sync>(gate: &G) {
    gate.pass(0, 7);
}

// A writer that takes nothing.
#[derive(Drop)]
struct Full;

impl Write for Full {
    fn write(&mut self, _buf: &[u8]) -> io::Result<usize> {
        Ok(0)
    }

    fn flush(&mut self) -> io::Result<()> {
        Ok(())
    }
}

#[test]
fn files_in_memory_give_the_first_of_a_name(rt: HostRuntime) -> Result<(), Fail> {
    let alloc = rt.alloc();
    let mut files = SureFiles::new(make_entries(alloc)?);
    let whole = read_through(alloc, &mut files, b"a", 9)?;
    assert_eq!(rt; whole.as_slice(), b"first".as_slice());
    let cut = read_through(alloc, &mut files, b"b", 3)?;
    assert_eq!(rt; cut.as_slice(), b"sec".as_slice());
    let missing = read_through(alloc, &mut files, b"c", 3);
    assert_eq!(rt; missing.err(), Some(ReadFault::Missing));
    assert_eq!(rt; files.misses, 1);
    Ok(())
}

#[test]
fn listed_reads_fail(rt: HostRuntime) -> Result<(), Fail> {
    let alloc = rt.alloc();
    let mut files = MemFiles::new(make_entries(alloc)?, make_calls(alloc, &[1])?);
    let before = read_through(alloc, &mut files, b"b", 9)?;
    assert_eq!(rt; before.as_slice(), b"second".as_slice());
    let failed = read_through(alloc, &mut files, b"b", 9);
    assert_eq!(rt; failed.err(), Some(ReadFault::Failed));
    let after = read_through(alloc, &mut files, b"b", 9)?;
    assert_eq!(rt; after.as_slice(), b"second".as_slice());
    let missing = read_through(alloc, &mut files, b"c", 9);
    assert_eq!(rt; missing.err(), Some(ReadFault::Missing));
    assert_eq!(rt; (files.next, files.faults, files.misses), (4, 1, 1));
    Ok(())
}

#[test]
fn files_of_the_system_are_read(rt: HostRuntime) -> Result<(), Fail> {
    let alloc = rt.alloc();
    let path = env::temp_dir(&rt)?.join(alloc, "vx_world_files_of_the_system_are_read")?;
    let name = path.as_str();
    fs::write(&rt, name, "kernel")?;
    let mut files = FolderFiles::new(&rt);
    let whole = read_through(alloc, &mut files, name.as_bytes(), 9)?;
    let cut = read_through(alloc, &mut files, name.as_bytes(), 3)?;
    fs::remove_file(&rt, name)?;
    let missing = read_through(alloc, &mut files, name.as_bytes(), 9);
    let no_text = read_through(alloc, &mut files, b"\xff", 9);
    assert_eq!(rt; whole.as_slice(), b"kernel".as_slice());
    assert_eq!(rt; cut.as_slice(), b"ker".as_slice());
    assert_eq!(rt; missing.err(), Some(ReadFault::Missing));
    assert_eq!(rt; no_text.err(), Some(ReadFault::Failed));
    assert_eq!(rt; (files.faults, files.misses), (1, 1));
    Ok(())
}

#[test]
fn a_sink_in_memory_takes_one_byte_a_call(rt: HostRuntime) -> Result<(), Fail> {
    let alloc = rt.alloc();
    let mut out = MemOut::new(alloc, make_calls(alloc, &[3])?, 1);
    write_all(&mut out, b"abc")?;
    let failed = write_all(&mut out, b"d");
    assert_eq!(rt; failed.err(), Some(OutFault::Failed));
    write_all(&mut out, b"e")?;
    assert_eq!(rt; out.written(), b"abce".as_slice());
    assert_eq!(rt; (out.next, out.faults), (5, 1));
    Ok(())
}

#[test]
fn a_writer_is_a_sink(rt: HostRuntime) -> Result<(), Fail> {
    let mut out = StreamOut::new(Vec::new(rt.alloc()));
    write_all(&mut out, b"printed")?;
    assert_eq!(rt; out.sink.as_slice(), b"printed".as_slice());
    assert_eq!(rt; out.faults, 0);
    Ok(())
}

#[test]
fn a_writer_that_takes_nothing_fails(rt: HostRuntime) {
    let mut out = StreamOut::new(Full);
    let failed = write_all(&mut out, b"printed");
    assert_eq!(rt; failed.err(), Some(OutFault::Failed));
    assert_eq!(rt; out.faults, 1);
}

#[test]
fn no_gate_lets_pass() {
    pass_through(&NoGate);
}
