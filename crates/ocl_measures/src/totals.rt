//! How large a function is with its calls expanded, where the totals of its callees are known.
ghost use Rattle.std.specs.Prelude.{◌≡◌, ◌-◌, ◌≤◌, ◌^◌};
ghost use Rattle.ocl_program.specs.Shapes.{function_node};
ghost use Rattle.ocl_measures.specs.Totals.{added_up, calls_of, control_of, depth_of, nested, nodes_of, own_totals as own_totals_of, sites_of, variables_of};

use crate::sizes::{Inner, NONE, Totals, stmts_size};
use ocl_program::TypedFunction;

/// A function of which nothing is known.
pub const NO_TOTALS: Totals = Totals {
    variables: 0,
    sites: 0,
    calls: 0,
    size: NONE,
};

/// The totals of a function, nothing where there is none.
pub fn totals_at(totals: &[Totals], function: u32) -> Totals
    ensures variables { result.variables ≡ variables_of totals.now function }
    ensures sites { result.sites ≡ sites_of totals.now function }
    ensures calls { result.calls ≡ calls_of totals.now function }
    ensures nodes { result.size.nodes ≡ nodes_of totals.now function }
    ensures depth { result.size.depth ≡ depth_of totals.now function }
    ensures control { result.size.control ≡ control_of totals.now function }
{
    match totals.get(function as usize) {
        Some(totals) => *totals,
        None => NO_TOTALS,
    }
}

/// A function's own variables with those of its calls.
fn all_variables(function: &TypedFunction, totals: &[Totals]) -> u32
    ensures sum { result ≡ added_up (variables_of totals.now) function.now.variables function.now.calls.items }
    ensures fits { function.now.variables ≤ 2 ^ 32 - 1 }
{
    function.calls.iter().fold(function.variables, |sum, call| {
        sum.saturating_add(totals_at(totals, call.callee).variables)
    })
}

/// A function's own barriers with those of its calls.
fn all_sites(function: &TypedFunction, totals: &[Totals]) -> u32
    ensures sum { result ≡ added_up (sites_of totals.now) function.now.sites function.now.calls.items }
    ensures fits { function.now.sites ≤ 2 ^ 32 - 1 }
{
    function.calls.iter().fold(function.sites, |sum, call| {
        sum.saturating_add(totals_at(totals, call.callee).sites)
    })
}

/// How many calls inside one another a function has.
fn all_calls(function: &TypedFunction, totals: &[Totals]) -> u32
    ensures { result ≡ nested (calls_of totals.now) function.now.calls.items }
{
    function.calls.iter().fold(0, |most, call| {
        most.max(totals_at(totals, call.callee).calls.saturating_add(1))
    })
}

/// The totals of a function where those of its callees are these.
pub fn own_totals(function: &TypedFunction, totals: &[Totals]) -> Totals
    ensures { result ≡ own_totals_of totals.now (function_node function.now) }
{
    let inner = Inner {
        calls: function.calls.as_slice(),
        totals,
    };
    let size = stmts_size(inner, function.body.as_slice());
    Totals {
        variables: all_variables(function, totals),
        sites: all_sites(function, totals),
        calls: all_calls(function, totals),
        size,
    }
}
