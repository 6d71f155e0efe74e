//! The functions of a file put together of their typed blocks.
ghost use Rattle.std.specs.Prelude.{◌≡◌, ◌<◌, ◌^◌, IfOk, IfErr, length, map};
ghost use Rattle.ocl_ast.specs.Shapes.{function_tree};
ghost use Rattle.ocl_program.specs.Measures.{callees};
ghost use Rattle.ocl_program.specs.Shapes.{function_node};
ghost use Rattle.ocl_measures.specs.Totals.{sites_of, variables_of};
ghost use Rattle.ocl_types.specs.Answers.{with_bodies, with_body};
ghost use Rattle.ocl_types.specs.Results.{TotalsTo};
ghost use Rattle.ocl_types.specs.Functions.{bare_call as bare_call_of, placed_by, sites_from, within_limits};
ghost use Rattle.ocl_types.specs.declared.faults.TypeFault.TheVariants as fault;

use crate::bodies::TypedBody;
use crate::faults::TypeFault;
use crate::limits::{check_kernels, check_params, known_totals};
use ocl_ast::Function;
use ocl_measures::sizes::Totals;
use ocl_measures::totals::totals_at;
use ocl_program::{CallSite, TypedFunction};
use std::alloc::{AllocError, Global};

/// A call without the places where its variables and barriers begin.
fn bare_call(callee: u32) -> CallSite
    ensures { result ≡ bare_call_of callee }
{
    CallSite {
        callee,
        variables: 0,
        sites: 0,
    }
}

/// The calls of helpers without the places where their variables and barriers begin.
fn bare_calls(alloc: Global, callees: &[u32]) -> Result<Vec<CallSite>, AllocError>
    ensures { IfOk result (λ calls. calls.items ≡ map bare_call_of callees.now) }
{
    callees
        .iter()
        .map(|callee| bare_call(*callee))
        .collect(alloc)
}

/// A function whose block is typed.
fn resolved(alloc: Global, function: Function, body: TypedBody) -> Result<TypedFunction, AllocError>
    ensures { IfOk result (λ f. function_node f ≡ with_body (function_tree function) body) }
{
    let calls = bare_calls(alloc, body.calls.as_slice())?;
    Ok(TypedFunction {
        kernel: function.kernel,
        name: function.name,
        gives: function.gives,
        params: function.params,
        variables: body.variables,
        sites: body.sites,
        arrays: body.arrays,
        calls,
        body: body.items,
    })
}

/// The functions whose blocks are typed.
#[tactic(auto, using(crate::proofs::Filing::with_bodies_is))]
pub fn all_resolved(
    alloc: Global,
    functions: Vec<Function>,
    bodies: Vec<TypedBody>,
) -> Result<Vec<TypedFunction>, TypeFault>
    ensures ok { IfOk result (λ fs. map function_node fs.items ≡ with_bodies (map function_tree functions.items) bodies.items) }
    ensures memory { IfErr result (λ f. f ≡ fault.Memory) }
{
    let mut done = Vec::new(alloc);
    for (function, body) in functions.into_iter().zip(bodies) {
        match resolved(alloc, function, body) {
            Ok(function) => match done.push(function) {
                Ok(()) => {}
                Err(_full) => return Err(TypeFault::Memory),
            },
            Err(_full) => return Err(TypeFault::Memory),
        }
    }
    Ok(done)
}

/// The calls of a function with the places where their variables and barriers begin: behind its own and those of the
/// calls before them.
#[tactic(auto, using(crate::proofs::Filing::placed_more, crate::proofs::Filing::placed_all))]
fn placed_calls(
    alloc: Global,
    function: &TypedFunction,
    totals: &[Totals],
) -> Result<Vec<CallSite>, TypeFault>
    ensures ok { IfOk result (λ calls. calls.items ≡ sites_from (variables_of totals.now) (sites_of totals.now) function.now.variables function.now.sites (callees (function_node function.now))) }
    ensures memory { IfErr result (λ f. f ≡ fault.Memory) }
{
    let mut placed = Vec::new(alloc);
    let mut variables = function.variables;
    let mut sites = function.sites;
    for call in &function.calls {
        let inner = totals_at(totals, call.callee);
        match placed.push(CallSite {
            callee: call.callee,
            variables,
            sites,
        }) {
            Ok(()) => {}
            Err(_full) => return Err(TypeFault::Memory),
        }
        variables = variables.saturating_add(inner.variables);
        sites = sites.saturating_add(inner.sites);
    }
    Ok(placed)
}

/// Places the calls of all functions.
pub fn all_placed(
    alloc: Global,
    functions: Vec<TypedFunction>,
    totals: &[Totals],
) -> Result<Vec<TypedFunction>, TypeFault>
    ensures ok { IfOk result (λ fs. map function_node fs.items ≡ map (placed_by totals.now) (map function_node functions.items)) }
    ensures memory { IfErr result (λ f. f ≡ fault.Memory) }
{
    let mut done = Vec::new(alloc);
    for function in functions {
        match placed_calls(alloc, &function, totals) {
            Ok(calls) => match done.push(TypedFunction { calls, ..function }) {
                Ok(()) => {}
                Err(_full) => return Err(TypeFault::Memory),
            },
            Err(fault) => return Err(fault),
        }
    }
    Ok(done)
}

/// The totals of functions that are within the limits.
#[tactic(auto, using(crate::proofs::Filing::recursion_fault, crate::proofs::Filing::params_too_many, crate::proofs::Filing::kernel_too_large, crate::proofs::Filing::all_within))]
pub fn limited_totals(alloc: Global, functions: &[TypedFunction]) -> Result<Vec<Totals>, TypeFault>
    requires { length functions.now < 2 ^ 32 }
    ensures { TotalsTo result (map function_node functions.now) (within_limits (map function_node functions.now)) }
{
    let totals = known_totals(alloc, functions)?;
    check_params(functions)?;
    check_kernels(functions, totals.as_slice())?;
    Ok(totals)
}
