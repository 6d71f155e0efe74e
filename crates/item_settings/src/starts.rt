//! The values of a kernel's scalar parameters.
ghost use Rattle.std.specs.Prelude.{◌≡◌, [], ◌++◌, IfOk, OnOk};
ghost use Rattle.item_settings.specs.Settings.{bound_value as bound_value_of, bound_values as bound_values_of, with_value};

use item_acts::Bound;
use ocl_ast::Param;
use std::alloc::{AllocError, Global};
use vx_base::{Elem, ParamKind, fit};

/// The values of the scalar parameters in order.
pub fn bound_values(
    alloc: Global,
    params: &[Param],
    bounds: &[Bound],
) -> Result<Vec<u32>, AllocError>
    ensures { IfOk result (λ values. values.items ≡ bound_values_of params.now bounds.now) }
{
    let mut values = Vec::new(alloc);
    for (k, param) in params.iter().enumerate() {
        match bounds.get(k) {
            Some(bound) => push_bound_value(&mut values, param.kind, *bound)?,
            None => return Ok(values),
        }
    }
    Ok(values)
}

/// The value of a parameter, where it is a scalar.
fn push_bound_value(values: &mut Vec<u32>, kind: ParamKind, bound: Bound) -> Result<(), AllocError>
    ensures { OnOk result (values.new.items ≡ values.old.items ++ with_value kind bound []) }
{
    match kind {
        ParamKind::Scalar(elem) => {
            values.push(bound_value(elem, bound))?;
            Ok(())
        }
        ParamKind::Pointer { .. } => Ok(()),
    }
}

/// What a scalar parameter is bound to.
fn bound_value(elem: Elem, bound: Bound) -> u32
    ensures { result ≡ bound_value_of elem bound }
{
    match bound {
        Bound::Value(value) => fit(elem, value),
        Bound::Array { .. } => 0,
    }
}
