//! The program of a kernel's file.

ghost use Rattle.std.specs.Prelude.{◌≤◌, Ok, IfErr, IfOk, length, map};
ghost use Rattle.ocl_program.specs.Shapes.{function_node};
ghost use Rattle.vx_cc.specs.Fronts.{FrontOf};
ghost use Rattle.vx_run.specs.Answers.{most_source};
ghost use Rattle.vx_run.specs.Stages.{IsNoProgram};

use crate::stages::Stop;
use ocl_types::Program;
use std::alloc::Global;
use vx_cc::front;

/// The most bytes that a kernel's file may have.
pub const SOURCE_LIMIT: usize = 1_048_576;

/// The program of a kernel's file with these bytes.
pub fn program_of(alloc: Global, source: &[u8]) -> Result<Program, Stop>
    ensures few { IfOk result (λ program. length source.now ≤ most_source) }
    ensures found { IfOk result (λ program. FrontOf source.now (Ok (map function_node program.functions.items))) }
    ensures stop { IfErr result (IsNoProgram source.now) }
{
    if source.len() > SOURCE_LIMIT {
        return Err(Stop::too_long());
    }
    Ok(front(alloc, source)?)
}
