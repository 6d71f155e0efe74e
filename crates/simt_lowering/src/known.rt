//! What is known of a kernel that is lowered.
ghost use Rattle.std.specs.Prelude.{◌≡◌, ◌<◌, ◌+◌, ◌^◌};
ghost use Rattle.kir.specs.Shapes.{code_of, operand_of};
ghost use Rattle.uniformity.specs.Marks.{marked};
ghost use Rattle.simt_lowering.specs.Kept.{known_of_kernel};
ghost use Rattle.simt_lowering.specs.Lowered.{held as held_of, mask_of, own as own_of};
ghost use Rattle.simt_lowering.specs.Views.{known_in};

use kir::{Kir, Operand};
use ocl_ast::Param;
use ocl_program::LocalArray;
use uniformity::Marks;

/// What is known of a kernel.
#[derive(Drop)]
pub struct Known<'a> {
    /// Which of its variables are uniform.
    pub marks: &'a Marks,
    /// Its parameters in order.
    pub params: &'a [Param],
    /// The `__local` arrays that it declares, in order.
    pub arrays: &'a [LocalArray],
    /// How many variables it has.
    pub variables: u32,
}

impl<'a> Known<'a> {
    /// What is known of a kernel of which these variables are uniform.
    pub fn of(code: &'a Kir, marks: &'a Marks) -> Known<'a>
        ensures { known_in result ≡ known_of_kernel (marked marks.now) (code_of code.now) }
    {
        Known {
            marks,
            params: code.params.as_slice(),
            arrays: code.arrays.as_slice(),
            variables: code.variables,
        }
    }

    /// A register of the lowering's own, from 0.
    pub fn own(&self, number: u32) -> u32
        requires { self.now.variables + number < 2 ^ 32 }
        ensures { result ≡ own_of (known_in self.now) number }
    {
        self.variables + number
    }

    /// Its value.
    pub fn held(&self, number: u32) -> Operand
        requires { self.now.variables + number < 2 ^ 32 }
        ensures { operand_of result ≡ held_of (known_in self.now) number }
    {
        Operand::Variable(self.variables + number)
    }

    /// The register that keeps the lanes of a loop, by how many loops stand round it.
    pub fn mask(&self, depth: u32) -> u32
        requires { self.now.variables + (8 + depth) < 2 ^ 32 }
        ensures { result ≡ mask_of (known_in self.now) depth }
    {
        self.variables + (8 + depth)
    }
}
