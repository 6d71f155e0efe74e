//! Files that are read for a call.

ghost use Rattle.std.specs.Prelude.{◌≡◌, ◌≤◌, length, IfOk, IfErr};
ghost use Rattle.vx_run.specs.Stages.{IsMissingOf, ReadsFront, StageFaults, StageMisses, StopsReading};

use crate::report::Cause;
use crate::stages::Stop;
use std::alloc::Global;
use vx_base::{Memory, Text};
use vx_world::{Files, ReadFault};

// A copy of a name, for the refusal of a file that is not there.
fn copy_text(alloc: Global, text: &Text) -> Result<Text, Memory>
    ensures { IfOk result (λ copy. copy ≡ text.now) }
{
    Ok(Text {
        items: Vec::from_slice(alloc, &text.items)?,
    })
}

fn missing_file(alloc: Global, name: &Text) -> Stop
    ensures { IsMissingOf name.now result }
{
    match copy_text(alloc, name) {
        Ok(name) => Stop::Refused(Cause::Missing { name }),
        Err(Memory) => Stop::Memory,
    }
}

/// The first `most` bytes of a file, or all of them where it has fewer.
pub fn read_file<F: Files>(
    alloc: Global,
    files: &mut F,
    name: &Text,
    most: usize,
) -> Result<Vec<u8>, Stop>
    ensures held { F.held files.new ≡ F.held files.old }
    ensures front { IfOk result (λ bytes. ReadsFront (F.held files.old) name.now most bytes.items) }
    ensures stop { IfErr result (StopsReading (F.held files.old) name.now) }
    ensures faults { StageFaults result (F.faults files.old) (F.faults files.new) }
    ensures misses { StageMisses result (F.misses files.old) (F.misses files.new) }
{
    match files.read(alloc, &name.items, most) {
        Ok(bytes) => Ok(bytes),
        Err(ReadFault::Missing) => Err(missing_file(alloc, name)),
        Err(ReadFault::Failed) => Err(Stop::Refused(Cause::ReadFault { faults: 1 })),
        Err(ReadFault::Memory) => Err(Stop::Memory),
    }
}
