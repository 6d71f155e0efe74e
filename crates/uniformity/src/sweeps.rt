//! The marks of a kernel, by sweeps over its operations.
ghost use Rattle.std.specs.Prelude.{◌≡◌, IfOk, true};
ghost use Rattle.kir.specs.Shapes.{code_of, op_of, operand_of, ops_of};
ghost use Rattle.uniformity.specs.Marks.{AreGreatest, gives_uniform as gives_uniform_of, marked, target as target_of};
ghost use Rattle.uniformity.specs.Pairs.{ItemsAgree};
ghost use Rattle.uniformity.specs.Sweeps.{swept, swept_op, swept_single, under_test as under_test_of};

use crate::marks::{Marks, is_constant, is_of_group};
use kir::{Kir, Op, Operand};
use ocl_ast::Param;
use std::alloc::Global;
use vx_base::Memory;

/// The uniform variables of a kernel: its greatest set of variables that is closed. Memory is the only reason to give up.
///
/// Each sweep but the last takes off a mark, and looks at each operation once.
pub fn uniform(alloc: Global, code: &Kir) -> Result<Marks, Memory>
    ensures greatest { IfOk result (λ marks. AreGreatest (code_of code.now) (marked marks)) }
    ensures agree { IfOk result (λ marks. ItemsAgree (code_of code.now) (marked marks)) }
{
    let mut marks = Marks::all(alloc, code.variables)?;
    let mut left = marks.count();
    loop {
        sweep(
            &mut marks,
            code.params.as_slice(),
            true,
            code.ops.as_slice(),
        );
        let count = marks.count();
        if count == left {
            return Ok(marks);
        }
        left = count;
    }
}

/// Takes off the marks of variables that operations in order may not write. `same` says that they stand under no divergent test.
#[cycle(sweeping)]
fn sweep(marks: &mut Marks, params: &[Param], same: bool, ops: &[Op])
    ensures { marks.new ≡ swept params.now same (ops_of ops.now) marks.old }
{
    for k in 0..ops.len() {
        sweep_op(marks, params, same, &ops[k]);
    }
}

/// Takes off the marks of variables that an operation may not write.
#[cycle(sweeping)]
fn sweep_op(marks: &mut Marks, params: &[Param], same: bool, op: &Op)
    ensures { marks.new ≡ swept_op params.now same (op_of op.now) marks.old }
{
    match op {
        Op::If { test, yes, no } => {
            let under = under_test(marks, same, *test);
            sweep(marks, params, under, yes.as_slice());
            sweep(marks, params, under, no.as_slice());
        }
        Op::Loop {
            head,
            test,
            body,
            step,
        } => {
            let under = under_test(marks, same, *test);
            sweep(marks, params, under, head.as_slice());
            sweep(marks, params, under, body.as_slice());
            sweep(marks, params, under, step.as_slice());
        }
        Op::Call { body } => sweep(marks, params, same, body.as_slice()),
        _ => sweep_single(marks, params, same, op),
    }
}

/// Whether operations under a test stand under no divergent one.
fn under_test(marks: &Marks, same: bool, test: Operand) -> bool
    ensures { result ≡ under_test_of marks.now same (operand_of test) }
{
    same && marks.is_same(test)
}

/// Takes off the mark of the variable that an operation writes, if it may not.
fn sweep_single(marks: &mut Marks, params: &[Param], same: bool, op: &Op)
    ensures { marks.new ≡ swept_single params.now same (op_of op.now) marks.old }
{
    if same && gives_uniform(marks, params, op) {
        return;
    }
    if let Some(variable) = target(op) {
        marks.take_off(variable);
    }
}

/// Whether what an operation writes is the same for all items of a group that do it.
fn gives_uniform(marks: &Marks, params: &[Param], op: &Op) -> bool
    ensures { result ≡ gives_uniform_of params.now (marked marks.now) (op_of op.now) }
{
    match op {
        Op::Set { value, .. } | Op::Fit { value, .. } => marks.is_same(*value),
        Op::Calculate { left, right, .. } => marks.are_same(*left, *right),
        Op::Id {
            which,
            dimension,
            ..
        } => is_of_group(*which, marks.is_same(*dimension)),
        Op::Load { array, index, .. } => is_constant(params, *array) && marks.is_same(*index),
        _ => true,
    }
}

/// The variable that an operation writes.
fn target(op: &Op) -> Option<u32>
    ensures { result ≡ target_of (op_of op.now) }
{
    match op {
        Op::Set { variable, .. }
        | Op::Calculate { variable, .. }
        | Op::Fit { variable, .. }
        | Op::Id { variable, .. }
        | Op::Load { variable, .. } => Some(*variable),
        _ => None,
    }
}
