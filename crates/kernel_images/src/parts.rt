//! What a launch must know of a kernel: its parameters, and the bytes of its `__local` arrays.
ghost use Rattle.std.specs.Prelude.{◌≡◌, ◌≤◌, ℕ, IfOk, Some, map, slice_get};
ghost use Rattle.ocl_program.specs.declared.functions.LocalArray.{LocalArray as AnyArray};
ghost use Rattle.simt_lowering.specs.Laid.{array_bytes, kind_of};

use ocl_ast::Param;
use ocl_program::LocalArray;
use std::alloc::{AllocError, Global};
use vx_base::{KindList, SizeList};

/// What parameters take.
pub fn kinds_of(alloc: Global, params: &[Param]) -> Result<KindList, AllocError>
    ensures { IfOk result (λ kinds. kinds ≡ map kind_of params.now) }
{
    let mut items = Vec::new(alloc);
    for param in params {
        items.push(param.kind)?;
    }
    Ok(KindList { items })
}

/// The bytes of `__local` arrays, of which each has at most 262,144 elements.
pub fn sizes_of(alloc: Global, arrays: &[LocalArray]) -> Result<SizeList, AllocError>
    requires { (k : ℕ) (array : AnyArray) → slice_get arrays.now k ≡ Some array → array.count ≤ 262144 }
    ensures { IfOk result (λ sizes. sizes ≡ map array_bytes arrays.now) }
{
    let mut items = Vec::new(alloc);
    for array in arrays {
        items.push(array.count * array.elem.size().bytes())?;
    }
    Ok(SizeList { items })
}
