//! What the functions of a program may not be: recursive, or too large.
ghost use Rattle.std.specs.Prelude.{◌≡◌, ℕ, ◌<◌, ◌^◌, Err, None, if◌then◌else◌, length, map};
ghost use Rattle.ocl_program.specs.Measures.{cut};
ghost use Rattle.ocl_program.specs.Shapes.{function_node};
ghost use Rattle.ocl_measures.specs.Recursion.{IsFirstRecursive};
ghost use Rattle.ocl_measures.specs.Totals.{AreTotals};
ghost use Rattle.ocl_types.specs.Results.{PassesTo, TotalsTo};
ghost use Rattle.ocl_types.specs.Functions.{each_from, kernel_fault as kernel_fault_of, params_fault as params_fault_of, recursion_of, sized_fault};

use crate::faults::{Counted, TypeFault};
use ocl_measures::search::{AllTotals, all_totals};
use ocl_measures::sizes::Totals;
use ocl_measures::totals::totals_at;
use ocl_program::TypedFunction;
use std::alloc::Global;

/// The most parameters of a function.
const MOST_PARAMS: usize = 16;
/// The most variables of a kernel with its calls expanded.
const MOST_VARIABLES: u32 = 256;
/// The most `__local` arrays of a kernel.
const MOST_ARRAYS: usize = 16;
/// The most nodes of a kernel with its calls expanded.
const MOST_NODES: u32 = 16_384;
/// The most branches and loops inside one another.
const MOST_CONTROL: u32 = 30;
/// The most calls inside one another.
const MOST_CALLS: u32 = 31;

/// A count as a fault keeps it.
fn kept(count: usize) -> u32
    ensures { result ≡ cut count }
{
    u32::try_from(count).unwrap_or(u32::MAX)
}

/// The fault of a function that can reach a call of itself.
fn recursion_fault(functions: &[TypedFunction], function: u32) -> TypeFault
    requires { IsFirstRecursive (map function_node functions.now) function }
    ensures { each_from (recursion_of (map function_node functions.now)) 0 (map function_node functions.now) ≡ Err result }
{
    let place = function as usize;
    TypeFault::Recursive(functions[place].name.pos)
}

/// The totals of functions of which none can reach a call of itself, or the fault of the first that can.
#[tactic(auto, using(crate::proofs::Passing::none_recursive))]
pub fn known_totals(alloc: Global, functions: &[TypedFunction]) -> Result<Vec<Totals>, TypeFault>
    requires { length functions.now < 2 ^ 32 }
    ensures { TotalsTo result (map function_node functions.now) (each_from (recursion_of (map function_node functions.now)) 0 (map function_node functions.now)) }
{
    match all_totals(alloc, functions)? {
        AllTotals::Known(totals) => Ok(totals),
        AllTotals::Recursive(function) => Err(recursion_fault(functions, function)),
    }
}

/// The fault of a function with too many parameters.
fn params_fault(function: &TypedFunction) -> Option<TypeFault>
    ensures { (k : ℕ) → result ≡ params_fault_of k (function_node function.now) }
{
    let count = function.params.len();
    if count > MOST_PARAMS {
        return Some(TypeFault::TooMany {
            pos: function.name.pos,
            what: Counted::Params,
            count: kept(count),
        });
    }
    None
}

/// The fault of the first function with too many parameters.
#[tactic(auto, using(crate::proofs::Passing::passes, crate::proofs::Passing::fails, crate::proofs::Passing::none_fails))]
pub fn check_params(functions: &[TypedFunction]) -> Result<(), TypeFault>
    ensures { PassesTo result (each_from params_fault_of 0 (map function_node functions.now)) }
{
    for function in functions {
        if let Some(fault) = params_fault(function) {
            return Err(fault);
        }
    }
    Ok(())
}

/// The fault of a kernel that is too large with its calls expanded: its variables, its arrays, its nodes, and how deep
/// its branches, loops and calls are nested.
fn size_fault(function: &TypedFunction, totals: Totals) -> Option<TypeFault>
    ensures { result ≡ sized_fault (function_node function.now) totals.variables totals.size.nodes totals.size.control totals.calls }
{
    let pos = function.name.pos;
    if totals.variables > MOST_VARIABLES {
        return Some(TypeFault::TooMany {
            pos,
            what: Counted::Variables,
            count: totals.variables,
        });
    }
    if function.arrays.len() > MOST_ARRAYS {
        return Some(TypeFault::TooMany {
            pos,
            what: Counted::Variables,
            count: kept(function.arrays.len()),
        });
    }
    if totals.size.nodes > MOST_NODES {
        return Some(TypeFault::TooMany {
            pos,
            what: Counted::Nodes,
            count: totals.size.nodes,
        });
    }
    if totals.size.control > MOST_CONTROL {
        return Some(TypeFault::TooNested(pos));
    }
    if totals.calls > MOST_CALLS {
        return Some(TypeFault::TooNested(pos));
    }
    None
}

/// The fault of a function, if it is a kernel that is too large.
fn kernel_fault(function: &TypedFunction, totals: Totals) -> Option<TypeFault>
    ensures { result ≡ (if function.now.kernel then sized_fault (function_node function.now) totals.variables totals.size.nodes totals.size.control totals.calls else None) }
{
    if function.kernel {
        size_fault(function, totals)
    } else {
        None
    }
}

/// The fault of the first kernel that is too large.
#[tactic(auto, using(crate::proofs::Passing::passes, crate::proofs::Passing::fails, crate::proofs::Passing::none_fails, crate::proofs::Passing::kernel_sized))]
pub fn check_kernels(functions: &[TypedFunction], totals: &[Totals]) -> Result<(), TypeFault>
    requires few { length functions.now < 2 ^ 32 }
    requires measured { AreTotals (map function_node functions.now) (length functions.now) totals.now }
    ensures { PassesTo result (each_from (kernel_fault_of (map function_node functions.now)) 0 (map function_node functions.now)) }
{
    for (number, function) in functions.iter().enumerate() {
        if let Some(fault) = kernel_fault(function, totals_at(totals, number as u32)) {
            return Err(fault);
        }
    }
    Ok(())
}
