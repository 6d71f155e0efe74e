//! The program `port_steps`: up to four threads that each store to shared words through a port of its own, for measurements
//! of their speed (`bench/`). Its words are three numbers: the threads, 1 to 4; the stores of each; and how far the words that
//! they store to lie apart, 0 for one word and at most 16, a line. It prints nothing.
#![tactic(auto)]

ghost use Rattle.std.specs.Prelude.{◌≡◌, ◌<◌, ◌≤◌, All, IfSome, length};
ghost use Rattle.memory_banks.specs.Ports.{IsOf, opening_of};

use memory_banks::{Banks, Port, ports};
use std::alloc::Global;
use std::env;
use std::process::ExitCode;
use std::thread::{Threads, join};
use vx_base::{ListOf, Memory};

// The words of memory: one line of sixteen for each thread.
const WORDS: usize = 64;

// Stores the numbers below `steps` to the word, where there is a port.
fn store_all(banks: &Banks, port: Option<Port>, word: u32, steps: u32)
    requires of { IfSome port (λ p. IsOf banks.now p) }
    requires word { word < length (opening_of banks.now) }
{
    if let Some(mut port) = port {
        for count in 0..steps {
            port.store(banks, word, count);
        }
    }
}

// The same on two threads.
fn store_pair<R: Threads + Sync>(
    rt: &R,
    banks: &Banks,
    pair: (Option<Port>, Option<Port>),
    words: (u32, u32),
    steps: u32,
)
    requires first { IfSome pair.0 (λ p. IsOf banks.now p) }
    requires second { IfSome pair.1 (λ p. IsOf banks.now p) }
    requires words { (words.0 < length (opening_of banks.now)) × (words.1 < length (opening_of banks.now)) }
{
    let (a, b) = pair;
    let _ = join(
        rt,
        || -> ()
            requires { IfSome a (λ p. IsOf banks.now p) × (words.0 < length (opening_of banks.now)) }
        { store_all(banks, a, words.0, steps) },
        || -> ()
            requires { IfSome b (λ p. IsOf banks.now p) × (words.1 < length (opening_of banks.now)) }
        { store_all(banks, b, words.1, steps) },
    );
}

// Takes a port off the list, where one is left.
fn take_port(banks: &Banks, made: &mut ListOf<Port>) -> Option<Port>
    requires { All (λ p. IsOf banks.now p) made.old }
    ensures port { IfSome result (λ p. IsOf banks.now p) }
    ensures rest { All (λ p. IsOf banks.now p) made.new }
{
    made.items.pop()
}

// The same on up to four threads. `apart` is how far the words of two threads lie apart.
fn store_four<R: Threads + Sync>(
    rt: &R,
    banks: &Banks,
    mut made: ListOf<Port>,
    apart: u32,
    steps: u32,
)
    requires of { All (λ p. IsOf banks.now p) made }
    requires words { length (opening_of banks.now) ≡ 64 }
    requires apart { apart ≤ 16 }
{
    let left = (take_port(banks, &mut made), take_port(banks, &mut made));
    let right = (take_port(banks, &mut made), take_port(banks, &mut made));
    let _ = join(
        rt,
        || -> ()
            requires { IfSome left.0 (λ p. IsOf banks.now p) × IfSome left.1 (λ p. IsOf banks.now p) × (length (opening_of banks.now) ≡ 64) × (apart ≤ 16) }
        { store_pair(rt, banks, left, (0, apart), steps) },
        || -> ()
            requires { IfSome right.0 (λ p. IsOf banks.now p) × IfSome right.1 (λ p. IsOf banks.now p) × (length (opening_of banks.now) ≡ 64) × (apart ≤ 16) }
        { store_pair(rt, banks, right, (2 * apart, 3 * apart), steps) },
    );
}

// Makes the words and the ports, and lets the threads store.
fn run<R: Threads + Sync>(
    rt: &R,
    alloc: Global,
    threads: u32,
    steps: u32,
    apart: u32,
) -> Result<(), Memory>
    requires some { 1 ≤ threads }
    requires most { threads ≤ 4 }
    requires apart { apart ≤ 16 }
{
    let words = ListOf {
        items: Vec::from_elem(alloc, 0, WORDS)?,
    };
    let (banks, mut first) = Banks::of_words(alloc, &words)?;
    let made = ports(alloc, &banks, &mut first, threads)?;
    store_four(rt, &banks, made, apart, steps);
    Ok(())
}

// The number that the word behind the program's name at this place spells.
fn number_at(rt: &HostRuntime, place: usize) -> Option<u32> {
    env::args(rt).ok()?.nth(place)?.parse::<u32>().ok()
}

fn main(rt: HostRuntime) -> ExitCode {
    let (Some(threads), Some(steps), Some(apart)) = (
        number_at(&rt, 1),
        number_at(&rt, 2),
        number_at(&rt, 3),
    ) else {
        return ExitCode::from(2);
    };
    if threads < 1 || threads > 4 || apart > 16 {
        return ExitCode::from(2);
    }
    match run(&rt, rt.alloc(), threads, steps, apart) {
        Ok(()) => ExitCode::from(0),
        Err(Memory) => ExitCode::from(9),
    }
}
