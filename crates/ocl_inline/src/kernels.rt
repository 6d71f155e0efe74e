//! Kernels with all their calls expanded.
ghost use Rattle.std.specs.Prelude.{◌≡◌, ◌<◌, IfOk, Some, length, map};
ghost use Rattle.ocl_program.specs.Measures.{cut, measured, own_sites, own_variables};
ghost use Rattle.ocl_program.specs.Shapes.{function_node};
ghost use Rattle.ocl_sem.specs.Items.{kernel_scope};
ghost use Rattle.ocl_inline.specs.Expansion.{expanded, flat_stmts};
ghost use Rattle.ocl_inline.specs.FlatItems.{AsksAs, SpendsAs, flat_at};
ghost use Rattle.ocl_inline.specs.FlatLaws.{HaveMeasures, HaveSites, HaveVariables, WhereKernel};
ghost use Rattle.ocl_inline.specs.Shapes.{flat_trees, kernel_of};

use crate::expansion::expand_stmts;
use crate::trees::{Flat, FlatStmt};
use item_settings::copied_params;
use ocl_measures::sizes::Totals;
use ocl_measures::totals::totals_at;
use ocl_program::TypedFunction;
use ocl_sem::scopes::Scope;
use ocl_types::Program;
use std::alloc::Global;
use vx_base::Memory;

/// A function of a program with all its calls expanded: its items ask for what the function's ask for, at every number of steps.
/// Of a kernel, each barrier has a number of its own, variables are numbered below their count, and the measures are those that
/// the program has of it. Memory is the only reason to give up.
pub fn expand(alloc: Global, program: &Program, kernel: u32) -> Result<Flat, Memory>
    requires { kernel < length program.now.functions.items }
    ensures flat { IfOk result (λ flat. flat_at (map function_node program.now.functions.items) kernel ≡ Some (kernel_of flat)) }
    ensures asks { IfOk result (λ flat. AsksAs (kernel_of flat) (map function_node program.now.functions.items) kernel) }
    ensures spends { IfOk result (λ flat. SpendsAs (kernel_of flat) (map function_node program.now.functions.items) kernel) }
    ensures sites { IfOk result (λ flat. WhereKernel (map function_node program.now.functions.items) kernel (HaveSites (map function_node program.now.functions.items) kernel (kernel_of flat))) }
    ensures variables { IfOk result (λ flat. WhereKernel (map function_node program.now.functions.items) kernel (HaveVariables (map function_node program.now.functions.items) kernel (kernel_of flat))) }
    ensures measures { IfOk result (λ flat. WhereKernel (map function_node program.now.functions.items) kernel (HaveMeasures (map function_node program.now.functions.items) kernel (kernel_of flat))) }
{
    let flat = flat_kernel(alloc, program, kernel)?;
    Ok(flat)
}

/// The flat form of a kernel.
fn flat_kernel(alloc: Global, program: &Program, kernel: u32) -> Result<Flat, Memory>
    requires { kernel < length program.now.functions.items }
    ensures { IfOk result (λ flat. flat_at (map function_node program.now.functions.items) kernel ≡ Some (kernel_of flat)) }
{
    let functions = program.functions.as_slice();
    let function = &functions[kernel as usize];
    let totals = totals_of(program, kernel);
    let params = copied_params(alloc, function.params.as_slice())?;
    let arrays = function.arrays.as_slice().to_vec(alloc)?;
    let body = expand_body(alloc, functions, function)?;
    Ok(Flat {
        params,
        arrays,
        variables: totals.variables,
        sites: totals.sites,
        body,
    })
}

/// How large a function is with its calls expanded.
fn totals_of(program: &Program, function: u32) -> Totals
    ensures variables { result.variables ≡ cut (measured own_variables (map function_node program.now.functions.items) function) }
    ensures sites { result.sites ≡ cut (measured own_sites (map function_node program.now.functions.items) function) }
{
    totals_at(program.totals.as_slice(), function)
}

/// The items of a kernel's block: as many levels of calls as there are functions are all of them.
fn expand_body<'a>(
    alloc: Global,
    functions: &'a [TypedFunction],
    kernel: &'a TypedFunction,
) -> Result<Vec<FlatStmt>, Memory>
    ensures { IfOk result (λ flat. flat_trees flat.items ≡ flat_stmts (expanded (length (map function_node functions.now)) (map function_node functions.now)) (map function_node functions.now) (kernel_scope (function_node kernel.now)) (function_node kernel.now).body) }
{
    let scope = Scope {
        function: kernel,
        variables: 0,
        sites: 0,
        arrays: Vec::new(alloc),
    };
    let levels = functions.len();
    let body = expand_stmts(alloc, functions, &scope, levels, kernel.body.as_slice())?;
    Ok(body)
}
