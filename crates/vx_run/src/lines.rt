ghost use Rattle.std.specs.Prelude.{◌≡◌, IfOk, IsOk, string_bytes};
ghost use Rattle.vx_run.specs.Lines.{line_of, status_of};

use crate::report::{BufferKind, Cause, LaunchKind};
use std::alloc::{AllocError, Global};
use std::fmt;
use vx_base::{Memory, Pos, Text};

impl fmt::Display for LaunchKind {
    ghost use Rattle.std.specs.Prelude.{Some};
    ghost use Rattle.vx_run.specs.Lines.{launch_kind_text};

    ghost output = { λ kind. Some (launch_kind_text kind) };

    fn fmt<W: fmt::Write>(&self, f: &mut fmt::Formatter<W>) -> fmt::Result {
        match self {
            LaunchKind::NoEntry => write!(f, "NoEntry"),
            LaunchKind::NotBuilt => write!(f, "NotBuilt"),
            LaunchKind::Arguments { given, wanted } => write!(f, "Arguments {given} {wanted}"),
        }
    }
}

impl fmt::Display for BufferKind {
    ghost use Rattle.std.specs.Prelude.{Some};
    ghost use Rattle.vx_run.specs.Lines.{buffer_kind_text};

    ghost output = { λ kind. Some (buffer_kind_text kind) };

    fn fmt<W: fmt::Write>(&self, f: &mut fmt::Formatter<W>) -> fmt::Result {
        match self {
            BufferKind::Length { bytes, size } => write!(f, "Length {bytes} {size}"),
        }
    }
}

impl fmt::Display for Cause {
    ghost use Rattle.std.specs.Prelude.{Some};
    ghost use Rattle.vx_run.specs.Lines.{message_of};

    ghost output = { λ cause. Some (message_of cause) };

    fn fmt<W: fmt::Write>(&self, f: &mut fmt::Formatter<W>) -> fmt::Result {
        match self {
            Cause::Done => write!(f, "done"),
            Cause::Usage { word, kind } => write!(f, "usage word {word} {kind}"),
            Cause::Source { pos, kind } => write!(f, "source {pos} {kind}"),
            Cause::Launch { index, kind } => write!(f, "launch {index} {kind}"),
            Cause::Buffer { index, kind } => write!(f, "buffer {index} {kind}"),
            Cause::Trap { launch, pos, item } => write!(
                f,
                "trap launch {launch} {pos} item {item}"
            ),
            Cause::Stuck {
                launch,
                core,
                waiting,
                ended,
            } => write!(
                f,
                "stuck launch {launch} core {core} waiting {waiting} ended {ended}"
            ),
            Cause::Turns {
                launch,
                core,
                group,
                ..
            } => write!(f, "turns launch {launch} core {core} group {group}"),
            Cause::ReadFault { .. } => write!(f, "read fault"),
            Cause::WriteFault { .. } => write!(f, "write fault"),
            Cause::Memory => write!(f, "out of memory"),
            Cause::Missing { name } => match str::from_utf8(&name.items) {
                Ok(name) => write!(f, "missing {name}"),
                Err(_) => Err(fmt::Error),
            },
        }
    }
}

/// The line that says how a call ended: the cause's message and a line feed.
pub fn cause_line(alloc: Global, cause: &Cause) -> Result<Text, Memory>
    ensures { IfOk result (λ line. line ≡ line_of cause.now) }
{
    let line = format!(in alloc; "{cause}\n")?;
    Ok(Text {
        items: line.into_bytes(),
    })
}

/// The status that the program ends with.
pub fn cause_status(cause: &Cause) -> u8
    ensures { result ≡ status_of cause.now }
{
    match cause {
        Cause::Done => 0,
        Cause::Usage { .. } => 1,
        Cause::Source { .. } => 2,
        Cause::Launch { .. } | Cause::Buffer { .. } => 3,
        Cause::Trap { .. } => 4,
        Cause::Stuck { .. } => 5,
        Cause::Turns { .. } => 6,
        Cause::ReadFault { .. } => 7,
        Cause::WriteFault { .. } => 8,
        Cause::Memory => 9,
        Cause::Missing { .. } => 10,
    }
}
