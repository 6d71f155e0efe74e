//! Kernels as images: the words of an image, in lines.

ghost use Rattle.std.specs.Prelude.{IfErr, map};
ghost use Rattle.ocl_program.specs.Shapes.{function_node};
ghost use Rattle.vx_run.specs.Answers.{FromEntry, FromFile, FromSource};
ghost use Rattle.vx_run.specs.Stages.{ComesTo, IsPlain, StageFaults, StageMisses};

use crate::programs::{SOURCE_LIMIT, program_of};
use crate::reading::read_file;
use crate::stages::{Answer, Stop};
use kernel_images::compile;
use ocl_types::Program;
use std::alloc::Global;
use vx_base::Text;
use vx_world::Files;

// The lines of the image of a program's kernel.
fn lines_of_kernel(alloc: Global, program: &Program, entry: &[u8]) -> Result<Answer, Stop>
    ensures comes { ComesTo (FromEntry entry.now (map function_node program.now.functions.items)) result }
    ensures plain { IfErr result IsPlain }
{
    let image = compile(alloc, program, entry)?;
    Ok(Answer::built(alloc, image)?)
}

// The lines of the image of a kernel of a file with these bytes.
fn lines_of_source(alloc: Global, source: &[u8], entry: &[u8]) -> Result<Answer, Stop>
    ensures comes { ComesTo (FromSource (FromEntry entry.now) source.now) result }
    ensures plain { IfErr result IsPlain }
{
    let program = program_of(alloc, source)?;
    lines_of_kernel(alloc, &program, entry)
}

/// What `build` comes to: the words of the image of the file's kernel of this name, in lines.
pub fn answer_build<F: Files>(
    alloc: Global,
    files: &mut F,
    file: &Text,
    entry: &Text,
) -> Result<Answer, Stop>
    ensures comes { ComesTo (FromFile (F.held files.old) file.now (FromEntry entry.now)) result }
    ensures faults { StageFaults result (F.faults files.old) (F.faults files.new) }
    ensures misses { StageMisses result (F.misses files.old) (F.misses files.new) }
{
    let source = read_file(alloc, files, file, SOURCE_LIMIT + 1)?;
    lines_of_source(alloc, &source, entry.as_slice())
}
