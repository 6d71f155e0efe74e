//! Operations that compute.
ghost use Rattle.std.specs.Prelude.{◌≡◌, OnOk};
ghost use Rattle.item_settings.specs.Views.{setting_in};
ghost use Rattle.kir.specs.Machine.{known_of, state};
ghost use Rattle.kir.specs.Shapes.{op_of};
ghost use Rattle.kir.specs.Views.{computed, state_of, tasks_of, variables_of};

use crate::ops::Op;
use crate::states::State;
use item_settings::Setting;
use ocl_program::Builtin;
use std::alloc::AllocError;
use vx_base::{alu_value, fit};

/// What a built-in function of a dimension gives, and the number of dimensions.
fn known(at: &Setting<'_>, which: Builtin, d: u32) -> u32
    ensures { result ≡ known_of (setting_in at.now) which d }
{
    match which {
        Builtin::WorkDim => at.range.dims,
        Builtin::GlobalId
        | Builtin::LocalId
        | Builtin::GroupId
        | Builtin::GlobalSize
        | Builtin::LocalSize
        | Builtin::NumGroups
        | Builtin::GlobalOffset
        | Builtin::Min
        | Builtin::Max
        | Builtin::Clamp
        | Builtin::Abs
        | Builtin::MulHi => at.id(which, d),
    }
}

impl<'a> State<'a> {
    /// An operation that computes the value of a variable.
    pub fn compute(&mut self, at: &Setting<'_>, op: &Op) -> Result<(), AllocError>
        ensures { OnOk result (state_of self.new ≡ state (tasks_of self.old.tasks) (computed (setting_in at.now) (op_of op.now) (variables_of self.old)) self.old.turns) }
    {
        match op {
            Op::Set { variable, value } => {
                let value = self.value(*value);
                self.variables.put(*variable, value)
            }
            Op::Calculate {
                variable,
                op,
                left,
                right,
            } => {
                let value = alu_value(*op, self.value(*left), self.value(*right));
                self.variables.put(*variable, value)
            }
            Op::Fit {
                variable,
                elem,
                value,
            } => {
                let value = fit(*elem, self.value(*value));
                self.variables.put(*variable, value)
            }
            Op::Id {
                variable,
                which,
                dimension,
            } => {
                let value = known(at, *which, self.value(*dimension));
                self.variables.put(*variable, value)
            }
            Op::Load { .. } | Op::Store { .. } | Op::Check { .. } | Op::Barrier { .. } => Ok(()),
            Op::If { .. } | Op::Loop { .. } | Op::Call { .. } => Ok(()),
            Op::Break | Op::Continue | Op::Return => Ok(()),
        }
    }
}
