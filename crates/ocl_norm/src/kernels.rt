//! Kernels in normal form.
ghost use Rattle.std.specs.Prelude.{◌≡◌, ◌<◌, ◌^◌, IfOk, nat_lt};
ghost use Rattle.kir.specs.Shapes.{code_of};
ghost use Rattle.ocl_inline.specs.Shapes.{kernel_of};
ghost use Rattle.ocl_norm.specs.Kept.{KeepsMeasures};
ghost use Rattle.ocl_norm.specs.Laws.{DoesTheSame};
ghost use Rattle.ocl_norm.specs.Normal.{normal_kernel};
ghost use Rattle.ocl_inline.specs.Proper.{IsTypedKernel, NumbersAreWords};

use crate::rooms::stmts_room;
use crate::statements::stmts_list;
use item_settings::copied_params;
use kir::Kir;
use ocl_inline::trees::Flat;
use std::alloc::Global;
use vx_base::Memory;

/// Whether the numbers of all variables of a flat kernel's normal form are words. The numbers written in it are.
pub fn fits(flat: &Flat) -> bool
    ensures fits { result ≡ nat_lt (normal_kernel (kernel_of flat.now)).variables (2 ^ 32) }
    ensures words { NumbersAreWords (kernel_of flat.now) }
{
    let own = u64::from(flat.variables);
    own.saturating_add(stmts_room(flat.body.as_slice())) < 4_294_967_296
}

/// The normal form of a flat kernel: its parameters and arrays, and behind its variables those that its statements use. It asks for what
/// a typed kernel asks for; its barriers, branches, loops, calls, variables and words are bounded by the kernel's measures. All numbers
/// of variables are words, and so are the numbers written in the kernel. Memory is the only reason to give up.
pub fn normalise(alloc: Global, flat: &Flat) -> Result<Kir, Memory>
    requires numbers { (normal_kernel (kernel_of flat.now)).variables < 2 ^ 32 }
    ensures normal { IfOk result (λ code. code_of code ≡ normal_kernel (kernel_of flat.now)) }
    ensures words { IfOk result (λ code. NumbersAreWords (kernel_of flat.now)) }
    ensures asks { IfOk result (λ code. IsTypedKernel (kernel_of flat.now) → DoesTheSame (kernel_of flat.now) (code_of code)) }
    ensures keeps { IfOk result (λ code. KeepsMeasures (kernel_of flat.now) (code_of code)) }
{
    let code = normal_code(alloc, flat)?;
    Ok(code)
}

/// The normal form.
fn normal_code(alloc: Global, flat: &Flat) -> Result<Kir, Memory>
    requires numbers { (normal_kernel (kernel_of flat.now)).variables < 2 ^ 32 }
    ensures normal { IfOk result (λ code. code_of code ≡ normal_kernel (kernel_of flat.now)) }
    ensures words { IfOk result (λ code. NumbersAreWords (kernel_of flat.now)) }
{
    let variables = all_variables(flat);
    let params = copied_params(alloc, flat.params.as_slice())?;
    let arrays = flat.arrays.as_slice().to_vec(alloc)?;
    let ops = stmts_list(alloc, flat.body.as_slice(), flat.variables)?;
    Ok(Kir {
        params,
        arrays,
        variables,
        ops,
    })
}

/// How many variables the normal form has.
fn all_variables(flat: &Flat) -> u32
    requires numbers { (normal_kernel (kernel_of flat.now)).variables < 2 ^ 32 }
    ensures count { result ≡ (normal_kernel (kernel_of flat.now)).variables }
    ensures words { NumbersAreWords (kernel_of flat.now) }
{
    let more = stmts_room(flat.body.as_slice()) as u32;
    flat.variables + more
}
