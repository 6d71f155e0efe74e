//! The typing of functions: their parameters and their blocks.
ghost use Rattle.std.specs.Prelude.{[]};
ghost use Rattle.ocl_ast.specs.Shapes.{function_tree};
ghost use Rattle.ocl_types.specs.Answers.{BodiesTo, BodyTo};
ghost use Rattle.ocl_types.specs.Functions.{typed_function, typed_functions};
ghost use Rattle.ocl_types.specs.Tables.{NumbersOf, trees_of};

use crate::stmts::typed_stmts;
use ocl_ast::Function;
use ocl_types::TypeFault;
use ocl_types::bodies::{TypedBody, declare_params};
use ocl_types::functions::Functions;
use ocl_types::standing::{Place, Standing};
use std::alloc::Global;

/// Types a function.
fn typed_body(
    alloc: Global,
    functions: &Functions<'_>,
    function: &Function,
) -> Result<TypedBody, TypeFault>
    requires { NumbersOf functions.now.numbers.entries (trees_of functions.now.functions.now) }
    ensures { BodyTo result (function_tree function.now) (typed_function (trees_of functions.now.functions.now) (function_tree function.now)) }
{
    let mut st = Standing::new(alloc)?;
    declare_params(alloc, &mut st, function.params.as_slice())?;
    let place = Place {
        gives: function.gives,
        in_loop: false,
        outermost: function.kernel,
    };
    let items = typed_stmts(alloc, functions, place, &mut st, function.body.as_slice())?;
    Ok(TypedBody {
        variables: st.variables,
        sites: st.sites,
        arrays: st.arrays,
        calls: st.calls,
        items,
    })
}

/// Types the functions of a file in order.
pub fn typed_bodies(alloc: Global, functions: &Functions<'_>) -> Result<Vec<TypedBody>, TypeFault>
    requires { NumbersOf functions.now.numbers.entries (trees_of functions.now.functions.now) }
    ensures { BodiesTo result (trees_of functions.now.functions.now) (typed_functions (trees_of functions.now.functions.now) [] (trees_of functions.now.functions.now)) }
{
    let mut bodies = Vec::new(alloc);
    for function in functions.functions {
        match typed_body(alloc, functions, function) {
            Ok(body) => match bodies.push(body) {
                Ok(()) => {}
                Err(_full) => return Err(TypeFault::Memory),
            },
            Err(fault) => return Err(fault),
        }
    }
    Ok(bodies)
}
