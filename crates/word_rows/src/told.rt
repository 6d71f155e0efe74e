//! How a command is told: a line that begins with its name, and for `run` and `gen` further lines.
//!
//! - `buf NAME TYPE in PATH` and `buf NAME TYPE zero COUNT`: a buffer.
//! - `do ENTRY DIMENSIONS GLOBAL LOCAL` and then each argument behind a blank: `buffer NUMBER`, `number WORD` or `local COUNT`. A
//!   size is told for each of three dimensions.
//! - `show NUMBER`: a buffer to print.
//! - `machine CORES WARPS LANES SETS WAYS BANKS SCHED EVICT TURNS STATS`: the machine, and whether records are printed.

use command_words::{BufFrom, BufWord, Command, DoWord};
use launch_plans::{Arg, Shape};
use std::alloc::{AllocError, Global};
use vx_base::Text;

/// A text, where it is one.
fn str_of(text: &Text) -> &str {
    str::from_utf8(text.as_slice()).unwrap_or("?")
}

fn push_buffer(said: &mut String, alloc: Global, buffer: &BufWord) -> Result<(), AllocError> {
    let name = str_of(&buffer.name);
    let elem = buffer.elem;
    let line = match &buffer.from {
        BufFrom::File(path) => format!(in alloc; "\nbuf {name} {elem} in {}", str_of(path))?,
        BufFrom::Zero(count) => format!(in alloc; "\nbuf {name} {elem} zero {count}")?,
    };
    said.push_str(line.as_str())
}

fn push_arg(said: &mut String, alloc: Global, arg: Arg) -> Result<(), AllocError> {
    let part = match arg {
        Arg::Buffer(number) => format!(in alloc; " buffer {number}")?,
        Arg::Int(word) => format!(in alloc; " number {word}")?,
        Arg::Local(count) => format!(in alloc; " local {count}")?,
    };
    said.push_str(part.as_str())
}

fn push_launch(said: &mut String, alloc: Global, launch: &DoWord) -> Result<(), AllocError> {
    let range = &launch.plan.range;
    let [first, second, third] = range.global;
    let [one, two, three] = range.local;
    let dims = range.dims;
    let entry = str_of(&launch.entry);
    let line = format!(in alloc;
        "\ndo {entry} {dims} {first}:{second}:{third} {one}:{two}:{three}"
    )?;
    said.push_str(line.as_str())?;
    for arg in launch.plan.args.as_slice() {
        push_arg(said, alloc, *arg)?;
    }
    Ok(())
}

fn push_machine(
    said: &mut String,
    alloc: Global,
    shape: &Shape,
    stats: bool,
) -> Result<(), AllocError> {
    let sizes = format!(in alloc;
        "\nmachine {} {} {} {} {} {}",
        shape.cores, shape.warps, shape.lanes, shape.sets, shape.ways, shape.banks
    )?;
    let picks = format!(in alloc;
        " {:?} {:?} {} {stats}",
        shape.sched, shape.evict, shape.turns
    )?;
    said.push_str(sizes.as_str())?;
    said.push_str(picks.as_str())
}

fn push_buffers(said: &mut String, alloc: Global, buffers: &[BufWord]) -> Result<(), AllocError> {
    for buffer in buffers {
        push_buffer(said, alloc, buffer)?;
    }
    Ok(())
}

fn push_launches(said: &mut String, alloc: Global, launches: &[DoWord]) -> Result<(), AllocError> {
    for launch in launches {
        push_launch(said, alloc, launch)?;
    }
    Ok(())
}

fn push_shows(said: &mut String, alloc: Global, shows: &[u32]) -> Result<(), AllocError> {
    for show in shows {
        said.push_str(format!(in alloc; "\nshow {show}")?.as_str())?;
    }
    Ok(())
}

/// A command.
pub fn command_text(alloc: Global, command: &Command) -> Result<String, AllocError> {
    match command {
        Command::Run {
            file,
            buffers,
            launches,
            shows,
            shape,
            stats,
        } => {
            let mut said = format!(in alloc; "run {}", str_of(file))?;
            push_buffers(&mut said, alloc, buffers.as_slice())?;
            push_launches(&mut said, alloc, launches.as_slice())?;
            push_shows(&mut said, alloc, shows.as_slice())?;
            push_machine(&mut said, alloc, shape, *stats)?;
            Ok(said)
        }
        Command::Build { file, entry } => {
            format!(in alloc; "build {} {}", str_of(file), str_of(entry))
        }
        Command::Asm { file } => format!(in alloc; "asm {}", str_of(file)),
        Command::Dis { file } => format!(in alloc; "dis {}", str_of(file)),
        Command::Gen {
            seed,
            count,
            shape,
            stats,
        } => {
            let mut said = format!(in alloc; "gen {seed} {count}")?;
            push_machine(&mut said, alloc, shape, *stats)?;
            Ok(said)
        }
    }
}
