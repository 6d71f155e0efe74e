//! The typing of a file.
ghost use Rattle.std.specs.Prelude.{◌<◌, ◌^◌, length, map};
ghost use Rattle.ocl_ast.specs.Shapes.{function_tree};
ghost use Rattle.ocl_types.specs.Answers.{BodiesTo};
ghost use Rattle.ocl_types.specs.Results.{ProgramTo};
ghost use Rattle.ocl_types.specs.Functions.{bodies_of, program_of};
ghost use Rattle.ocl_types.specs.Tables.{trees_of};

use crate::bodies::typed_bodies;
use ocl_ast::{Function, Unit};
use ocl_types::bodies::TypedBody;
use ocl_types::file::{all_placed, all_resolved, limited_totals};
use ocl_types::functions::Functions;
use ocl_types::{Program, TypeFault};
use std::alloc::Global;

/// The typed blocks of the functions of a file, whose names differ.
fn file_bodies(alloc: Global, functions: &[Function]) -> Result<Vec<TypedBody>, TypeFault>
    requires { length functions.now < 2 ^ 32 }
    ensures { BodiesTo result (trees_of functions.now) (bodies_of (trees_of functions.now)) }
{
    let functions = Functions::new(alloc, functions)?;
    typed_bodies(alloc, &functions)
}

/// Types a file: Ok with the program exactly where the file is typed and within the limits, and otherwise its first
/// fault. A file has fewer than 2^32 functions.
pub fn check(alloc: Global, unit: Unit) -> Result<Program, TypeFault>
    requires { length unit.functions < 2 ^ 32 }
    ensures { ProgramTo result (program_of (map function_tree unit.functions)) }
{
    let bodies = file_bodies(alloc, unit.functions.as_slice())?;
    let functions = all_resolved(alloc, unit.functions.items, bodies)?;
    let totals = limited_totals(alloc, functions.as_slice())?;
    let functions = all_placed(alloc, functions, totals.as_slice())?;
    Ok(Program { functions, totals })
}
