//! Kernels as structured code without jumps.
ghost use Rattle.std.specs.Prelude.{◌≤◌, ◌^◌, IfOk, map};
ghost use Rattle.kir.specs.Shapes.{code_of};
ghost use Rattle.ocl_program.specs.Measures.{measured, own_depth};
ghost use Rattle.ocl_program.specs.Shapes.{function_node};
ghost use Rattle.structured.specs.Passes.{IsPassed};
ghost use Rattle.structured.specs.Ready.{IsKernel, IsReadyFor};
ghost use Rattle.structured.specs.Source.{DoesAsSource};

use kir::Kir;
use kir_flow::flags;
use ocl_inline::expand;
use ocl_norm::normalise;
use ocl_types::Program;
use std::alloc::Global;
use vx_base::Memory;

/// A kernel of a program as structured code: operations whose operands are variables and numbers, held by branches and loops alone. Each
/// of its items asks for what it asks for in the source, and the code is ready to be lowered: checked, typed, and no larger than the
/// kernel's measures say. Memory is the only reason to give up.
pub fn structured(alloc: Global, program: &Program, kernel: u32) -> Result<Kir, Memory>
    requires kernel { IsKernel (map function_node program.now.functions.items) kernel }
    requires depth { measured own_depth (map function_node program.now.functions.items) kernel ≤ 2 ^ 31 }
    ensures asks { IfOk result (λ code. DoesAsSource (map function_node program.now.functions.items) kernel (code_of code)) }
    ensures ready { IfOk result (λ code. IsReadyFor (map function_node program.now.functions.items) kernel (code_of code)) }
{
    let code = passed(alloc, program, kernel)?;
    Ok(code)
}

/// The kernel after the three passes.
fn passed(alloc: Global, program: &Program, kernel: u32) -> Result<Kir, Memory>
    requires kernel { IsKernel (map function_node program.now.functions.items) kernel }
    requires depth { measured own_depth (map function_node program.now.functions.items) kernel ≤ 2 ^ 31 }
    ensures { IfOk result (λ code. IsPassed (map function_node program.now.functions.items) kernel (code_of code)) }
{
    let flat = expand(alloc, program, kernel)?;
    let normal = normalise(alloc, &flat)?;
    let code = flags(alloc, &normal)?;
    Ok(code)
}
