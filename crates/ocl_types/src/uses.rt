//! What a name stands for where it is used as a variable, an array or a function.
ghost use Rattle.std.specs.Prelude.{◌≡◌, ℕ, List, MatchResult, Ok, Err, slice_get};
ghost use Rattle.ocl_types.specs.Answers.{callee_in, typed_part};
ghost use Rattle.ocl_types.specs.Exprs.{array_of, callee_of, helper_of, variable_of};
ghost use Rattle.ocl_types.specs.Tables.{trees_of};

use crate::faults::TypeFault;
use crate::functions::Functions;
use crate::names::{Binding, FoundArray, Meaning};
use crate::parts::TypedPart;
use ocl_ast::{Gives, Param};
use ocl_program::{Builtin, TypedExpr};
use vx_base::Pos;

/// What a call's name stands for.
#[derive(Clone, Copy)]
pub enum Callee<'a> {
    /// A helper.
    Helper {
        /// Its number among the functions of the file.
        number: u32,
        /// Its parameters.
        params: &'a [Param],
        /// What it gives.
        gives: Gives,
    },
    /// A built-in function.
    Builtin(Builtin),
}

/// A name that is used as a variable.
pub fn as_variable(pos: Pos, meaning: Meaning) -> Result<TypedPart, TypeFault>
    ensures { (calls : List ℕ) → MatchResult result (λ part. variable_of pos calls meaning ≡ Ok (typed_part part calls)) (λ fault. variable_of pos calls meaning ≡ Err fault) }
{
    match meaning {
        Meaning::Bound(binding) => match binding {
            Binding::Scalar { variable, elem, .. } => Ok(TypedPart {
                expr: TypedExpr::Variable { variable, elem },
                elem,
            }),
            Binding::Array { .. } => Err(TypeFault::Mismatch(pos)),
        },
        Meaning::Function(_) => Err(TypeFault::Mismatch(pos)),
        Meaning::Builtin(_) => Err(TypeFault::Unknown(pos)),
        Meaning::Unknown => Err(TypeFault::Unknown(pos)),
    }
}

/// A name that is indexed.
pub fn as_array(pos: Pos, meaning: Meaning) -> Result<FoundArray, TypeFault>
    ensures { result ≡ array_of pos meaning }
{
    match meaning {
        Meaning::Bound(binding) => match binding {
            Binding::Scalar { .. } => Err(TypeFault::Mismatch(pos)),
            Binding::Array {
                array,
                space,
                elem,
                readonly,
            } => Ok(FoundArray {
                array,
                space,
                elem,
                readonly,
            }),
        },
        Meaning::Function(_) => Err(TypeFault::Mismatch(pos)),
        Meaning::Builtin(_) => Err(TypeFault::Unknown(pos)),
        Meaning::Unknown => Err(TypeFault::Unknown(pos)),
    }
}

/// A name that is called; a kernel is not.
pub fn as_callee<'a>(
    functions: &Functions<'a>,
    pos: Pos,
    meaning: Meaning,
) -> Result<Callee<'a>, TypeFault>
    ensures { MatchResult result (λ callee. callee_of (trees_of functions.now.functions.now) pos meaning ≡ Ok (callee_in callee)) (λ fault. callee_of (trees_of functions.now.functions.now) pos meaning ≡ Err fault) }
{
    match meaning {
        Meaning::Bound(_) => Err(TypeFault::Mismatch(pos)),
        Meaning::Function(number) => as_helper(functions, pos, number),
        Meaning::Builtin(which) => Ok(Callee::Builtin(which)),
        Meaning::Unknown => Err(TypeFault::Unknown(pos)),
    }
}

/// A function that is called.
fn as_helper<'a>(functions: &Functions<'a>, pos: Pos, number: u32) -> Result<Callee<'a>, TypeFault>
    ensures { MatchResult result (λ callee. helper_of pos number (slice_get (trees_of functions.now.functions.now) number) ≡ Ok (callee_in callee)) (λ fault. helper_of pos number (slice_get (trees_of functions.now.functions.now) number) ≡ Err fault) }
{
    let Some(function) = functions.at(number) else {
        return Err(TypeFault::Unknown(pos));
    };
    if function.kernel {
        return Err(TypeFault::Mismatch(pos));
    }
    Ok(Callee::Helper {
        number,
        params: function.params.as_slice(),
        gives: function.gives,
    })
}
