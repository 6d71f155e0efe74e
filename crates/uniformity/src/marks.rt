//! Marks of variables.
ghost use Rattle.std.specs.Prelude.{◌≡◌, IfOk, replicate, slice_set, true, false};
ghost use Rattle.kir.specs.Shapes.{operand_of};
ghost use Rattle.uniformity.specs.Marks.{are_uniform, is_constant as is_constant_of, is_of_group as is_of_group_of, is_uniform as is_uniform_of, marked};
ghost use Rattle.uniformity.specs.Sweeps.{mark_count};

use kir::Operand;
use ocl_ast::Param;
use ocl_program::{ArrayRef, Builtin};
use std::alloc::{AllocError, Global};
use std::marker::Model;
use vx_base::{ParamKind, Space};

/// Which variables of a kernel are uniform.
#[derive(Debug, Drop)]
pub struct Marks {
    /// For each variable whether it is.
    marks: Vec<bool>,
}

impl Model for Marks {
    ghost use Rattle.std.specs.Prelude.{Bool, List};

    ghost Value = { List Bool };

    ghost view = { λ m. m.marks.items };
}

impl Marks {
    /// All of so many variables are marked.
    pub fn all(alloc: Global, count: u32) -> Result<Marks, AllocError>
        ensures { IfOk result (λ marks. marks ≡ replicate count true) }
    {
        Ok(Marks {
            marks: vec![in alloc; true; count as usize]?,
        })
    }

    /// Whether a variable is marked.
    pub fn is_uniform(&self, variable: u32) -> bool
        ensures { result ≡ marked self.now variable }
    {
        match self.marks.get(variable as usize) {
            Some(mark) => *mark,
            None => false,
        }
    }

    /// Whether a value is a number or a marked variable.
    pub fn is_same(&self, value: Operand) -> bool
        ensures { result ≡ is_uniform_of (marked self.now) (operand_of value) }
    {
        match value {
            Operand::Variable(variable) => self.is_uniform(variable),
            Operand::Number(_) => true,
        }
    }

    /// Whether two values are.
    pub fn are_same(&self, left: Operand, right: Operand) -> bool
        ensures { result ≡ are_uniform (marked self.now) (operand_of left) (operand_of right) }
    {
        self.is_same(left) && self.is_same(right)
    }

    /// Takes off the mark of a variable.
    pub fn take_off(&mut self, variable: u32)
        ensures { self.new ≡ slice_set self.old variable false }
    {
        let at = variable as usize;
        if at < self.marks.len() {
            self.marks[at] = false;
        }
    }

    /// How many marks there are.
    pub fn count(&self) -> usize
        ensures { result ≡ mark_count self.now }
    {
        count_marks(&self.marks)
    }
}

/// How many of some marks are set.
fn count_marks(marks: &[bool]) -> usize
    ensures { result ≡ mark_count marks.now }
{
    let mut count = 0;
    for k in 0..marks.len() {
        if marks[k] {
            count += 1;
        }
    }
    count
}

/// Whether an array is a `__constant` one.
pub fn is_constant(params: &[Param], array: ArrayRef) -> bool
    ensures { result ≡ is_constant_of params.now array }
{
    match array {
        ArrayRef::Parameter(k) => match params.get(k as usize) {
            Some(param) => matches!(
                param.kind,
                ParamKind::Pointer {
                    space: Space::Constant,
                    ..
                }
            ),
            None => false,
        },
        ArrayRef::Declared(_) => false,
    }
}

/// Whether a built-in function gives the same to all items of a group, by whether its dimension is the same.
pub fn is_of_group(which: Builtin, same: bool) -> bool
    ensures { result ≡ is_of_group_of which same }
{
    match which {
        Builtin::WorkDim => true,
        Builtin::GlobalId | Builtin::LocalId => false,
        _ => same,
    }
}
