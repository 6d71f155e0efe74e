//! Kernels as code for the lanes of warps.
ghost use Rattle.std.specs.Prelude.{◌≤◌, ◌^◌, IfOk, length, map};
ghost use Rattle.ocl_program.specs.Measures.{measured, own_depth};
ghost use Rattle.ocl_program.specs.Shapes.{function_node};
ghost use Rattle.vcode.specs.Shapes.{vcode_of, vops_of};
ghost use Rattle.vcode.specs.Words.{words};
ghost use Rattle.structured.specs.Ready.{IsKernel};
ghost use Rattle.simt_lowering.specs.Bounds.{AreWithin, LeadWithin};
ghost use Rattle.simt_lowering.specs.InBlock.{ReadBlock};
ghost use Rattle.simt_lowering.specs.WithoutItems.{EndWithout};
ghost use Rattle.simt_lowering.specs.WrittenFirst.{AreWrittenFirst};
ghost use Rattle.lane_kernels.specs.Accesses.{AccessArrays};
ghost use Rattle.lane_kernels.specs.Passes.{IsLoweredFrom};
ghost use Rattle.lane_kernels.specs.Sizes.{most_registers, most_words};
ghost use Rattle.lane_kernels.specs.Source.{LanesDoAsSource};

use ocl_types::Program;
use simt_lowering::lower;
use std::alloc::Global;
use structured::structured;
use uniformity::uniform;
use vcode::VCode;
use vx_base::Memory;

/// A kernel of a program as code for the lanes of warps. In every accepted launch of the kernel the lane of each item, alone, asks for what
/// the item asks for in the source, and begins no more turns of loops until then. The code takes no more registers and words than the
/// kernel's measures say. Memory is the only reason to give up.
pub fn lane_kernel(alloc: Global, program: &Program, kernel: u32) -> Result<VCode, Memory>
    requires kernel { IsKernel (map function_node program.now.functions.items) kernel }
    requires depth { measured own_depth (map function_node program.now.functions.items) kernel ≤ 2 ^ 31 }
    ensures asks { IfOk result (λ made.
        LanesDoAsSource (map function_node program.now.functions.items) kernel
        (vops_of made.ops.items)) }
    ensures passes { IfOk result (λ made.
        IsLoweredFrom (map function_node program.now.functions.items) kernel (vcode_of made)) }
    ensures few_registers { IfOk result (λ made.
        made.registers ≤ most_registers (map function_node program.now.functions.items) kernel) }
    ensures few_words { IfOk result (λ made.
        words (vops_of made.ops.items)
        ≤ most_words (map function_node program.now.functions.items) kernel) }
    ensures registers { IfOk result (λ made. AreWithin made.registers (vops_of made.ops.items)) }
    ensures places { IfOk result (λ made.
        LeadWithin (length made.ops.items) (vops_of made.ops.items)) }
    ensures written { IfOk result (λ made. AreWrittenFirst (vops_of made.ops.items)) }
    ensures accesses { IfOk result (λ made.
        AccessArrays (map function_node program.now.functions.items) kernel
        (vops_of made.ops.items)) }
    ensures block { IfOk result (λ made. ReadBlock (vops_of made.ops.items)) }
    ensures ends { IfOk result (λ made. EndWithout (vops_of made.ops.items)) }
{
    let code = structured(alloc, program, kernel)?;
    let marks = uniform(alloc, &code)?;
    let made = lower(alloc, &code, &marks)?;
    Ok(made)
}
