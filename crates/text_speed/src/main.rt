//! The program `text_speed`: loads 1,048,576 ints from bytes into words, or prints them as lines, again and again, for measurements
//! of the speed of both (`bench/`). Its words are `in` or `out`, and how many times. It prints how many bytes it loaded or printed.
#![tactic(auto)]

ghost use Rattle.std.specs.Prelude.{◌≡◌, ◌≤◌, length};

use buf_text::{BufLines, load};
use std::alloc::Global;
use std::env;
use std::process::ExitCode;
use vx_base::{Elem, ListOf, Memory, WordList};

// How many ints there are.
const INTS: u32 = 1_048_576;

// How many lines they are printed as: the head, and sixteen ints on each.
const LINES: u32 = 1 + INTS / 16;

// The bytes of as many ints, by draws.
fn make_bytes(alloc: Global) -> Result<Vec<u8>, Memory> {
    let mut bytes = Vec::with_capacity(alloc, 4 * INTS as usize)?;
    let mut seed = 1_u32;
    for count in 0..4 * INTS {
        seed = seed
            .wrapping_mul(1_664_525)
            .wrapping_add(1_013_904_223 ^ count);
        bytes.push((seed >> 24) as u8)?;
    }
    Ok(bytes)
}

// Loads the bytes into the words where there is room, and answers how many ints they are.
fn load_once(bytes: &[u8], words: &mut WordList) -> u32 {
    if bytes.len() > 4 * INTS as usize || words.len() < INTS as usize {
        return 0;
    }
    load(bytes, Elem::Int, 0, words).unwrap_or(0)
}

// Loads the bytes so many times, and answers how many bytes were loaded.
fn load_all(bytes: &[u8], words: &mut WordList, times: u32) -> u64 {
    let mut loaded = 0_u64;
    for count in 0..times {
        loaded = loaded.wrapping_add(4 * u64::from(load_once(bytes, words)));
    }
    loaded
}

// Prints the ints, and answers how many bytes the lines have.
fn print_lines(alloc: Global, words: &WordList) -> Result<u64, Memory>
    requires { 1048576 ≤ length words.now }
{
    let mut lines = BufLines::new(alloc, b"ints", Elem::Int, INTS, 0)?;
    let mut printed = 0_u64;
    for count in 0..LINES {
        if let Some(line) = lines.next(alloc, words)? {
            printed = printed.wrapping_add(line.len() as u64);
        }
    }
    Ok(printed)
}

// Prints the ints so many times, where there are as many, and answers how many bytes the lines have.
fn print_all(alloc: Global, words: &WordList, times: u32) -> Result<u64, Memory> {
    let mut printed = 0_u64;
    if words.len() < INTS as usize {
        return Ok(printed);
    }
    for count in 0..times {
        printed = printed.wrapping_add(print_lines(alloc, words)?);
    }
    Ok(printed)
}

// Loads or prints so many times, and answers how many bytes.
fn run(alloc: Global, printing: bool, times: u32) -> Result<u64, Memory> {
    let bytes = make_bytes(alloc)?;
    let mut words = ListOf {
        items: Vec::from_elem(alloc, 0_u32, INTS as usize)?,
    };
    if !printing {
        return Ok(load_all(bytes.as_slice(), &mut words, times));
    }
    let _count = load_once(bytes.as_slice(), &mut words);
    print_all(alloc, &words, times)
}

fn main(rt: HostRuntime) -> ExitCode {
    let Ok(mut words) = env::args(&rt) else {
        return ExitCode::from(9);
    };
    let _program = words.next();
    let (Some(way), Some(times)) = (words.next(), words.next()) else {
        return ExitCode::from(2);
    };
    let Ok(times) = times.as_str().parse::<u32>() else {
        return ExitCode::from(2);
    };
    let Ok(bytes) = run(rt.alloc(), way.as_str() == "out", times) else {
        return ExitCode::from(9);
    };
    match println!(rt; "{bytes}") {
        Ok(()) => ExitCode::from(0),
        Err(_error) => ExitCode::from(9),
    }
}
