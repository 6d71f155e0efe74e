//! The parameters of functions, and what a typed block has.
ghost use Rattle.ocl_types.specs.Answers.{StepsTo, standing_of};
ghost use Rattle.ocl_types.specs.Functions.{with_param, with_params};

use crate::faults::TypeFault;
use crate::kinds::is_fixed;
use crate::names::Binding;
use crate::standing::Standing;
use ocl_ast::Param;
use ocl_program::{ArrayRef, LocalArray, TypedStmt};
use std::alloc::Global;
use vx_base::ParamKind;

/// The block of a function, and what it declares.
#[derive(Drop)]
pub struct TypedBody {
    /// How many variables there are: the scalar parameters first, then what is declared.
    pub variables: u32,
    /// How many barriers there are.
    pub sites: u32,
    /// The `__local` arrays.
    pub arrays: Vec<LocalArray>,
    /// The callees of the calls of helpers.
    pub calls: Vec<u32>,
    /// The items of the block.
    pub items: Vec<TypedStmt>,
}

/// Declares a parameter of a number: a scalar is a variable, a pointer an array.
pub fn declare_param<'a>(
    alloc: Global,
    st: &mut Standing<'a>,
    number: usize,
    param: &'a Param,
) -> Result<(), TypeFault>
    ensures { StepsTo result (standing_of st.new) (with_param number param.now param.now.kind (standing_of st.old)) }
{
    match param.kind {
        ParamKind::Scalar(elem) => st.declare_variable(alloc, &param.name, elem, param.constant),
        ParamKind::Pointer {
            space,
            elem,
            readonly,
        } => {
            let array = u32::try_from(number).unwrap_or(u32::MAX);
            let binding = Binding::Array {
                array: ArrayRef::Parameter(array),
                space,
                elem,
                readonly: is_fixed(space, readonly),
            };
            st.declare(alloc, &param.name, binding)
        }
    }
}

/// Declares parameters in order.
pub fn declare_params<'a>(
    alloc: Global,
    st: &mut Standing<'a>,
    params: &'a [Param],
) -> Result<(), TypeFault>
    ensures { StepsTo result (standing_of st.new) (with_params 0 (standing_of st.old) params.now) }
{
    for (number, param) in params.iter().enumerate() {
        match declare_param(alloc, st, number, param) {
            Ok(()) => {}
            Err(fault) => return Err(fault),
        }
    }
    Ok(())
}
