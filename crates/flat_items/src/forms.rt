//! Flat kernels as a form of program for the machine.
ghost use Rattle.std.specs.Prelude.{◌≡◌, OnOk};
ghost use Rattle.ocl_inline.specs.FlatTasks.{stmt_tasks};
ghost use Rattle.ocl_inline.specs.Shapes.{expr_of as flat_expr};
ghost use Rattle.flat_items.specs.Views.{flat_tasks, part_of};

use crate::statements::{push_stmt, push_stmts};
use crate::unfold::push_value;
use ocl_inline::{Flat, FlatExpr, FlatStmt};
use std::alloc::{AllocError, Global};
use task_machine::{Form, Loop, Task, Tasks};

/// A statement that waits, or statements in order.
#[derive(Clone, Copy)]
pub enum FlatPart<'a> {
    /// One statement.
    One(&'a FlatStmt),
    /// Statements in order, as a block.
    Block(&'a [FlatStmt]),
}

/// A task of a flat kernel.
pub type FlatTask<'a> = Task<&'a FlatExpr, FlatPart<'a>>;

/// What is left to do in a flat kernel.
pub type FlatTasks<'a> = Tasks<&'a FlatExpr, FlatPart<'a>>;

/// A loop of a flat kernel.
pub type FlatLoop<'a> = Loop<&'a FlatExpr, FlatPart<'a>>;

/// A flat kernel, as a form of program.
#[derive(Clone, Copy)]
pub struct FlatForm<'a> {
    /// Where loops are kept.
    pub alloc: Global,
    /// The kernel.
    pub flat: &'a Flat,
}

/// The tasks of a statement, or of statements in order.
fn push_part<'a>(
    tasks: &mut FlatTasks<'a>,
    alloc: Global,
    part: FlatPart<'a>,
) -> Result<(), AllocError>
    ensures { OnOk result (flat_tasks tasks.new ≡ stmt_tasks (part_of part.entry) (flat_tasks tasks.old)) }
{
    match part {
        FlatPart::One(stmt) => push_stmt(tasks, alloc, stmt),
        FlatPart::Block(stmts) => push_stmts(tasks, alloc, stmts),
    }
}

impl<'a> Form for FlatForm<'a> {
    ghost use Rattle.ocl_inline.specs.FlatTasks.{flat_parts};
    ghost use Rattle.ocl_inline.specs.Trees.{FlatExpr as AnyExpr, FlatStmt as AnyStmt};

    type Expr = &'a FlatExpr;

    type Stmt = FlatPart<'a>;

    ghost Value = { AnyExpr };

    ghost Body = { AnyStmt };

    ghost expr_of = { λ expr. flat_expr expr.now };

    ghost stmt_of = { part_of };

    ghost parts = { λ form. flat_parts };

    fn push_value(&self, tasks: &mut FlatTasks<'a>, expr: &'a FlatExpr) -> Result<(), AllocError> {
        push_value(tasks, expr)
    }

    fn push_body(&self, tasks: &mut FlatTasks<'a>, stmt: FlatPart<'a>) -> Result<(), AllocError> {
        push_part(tasks, self.alloc, stmt)
    }

    fn copy_expr(&self, expr: &&'a FlatExpr) -> Result<&'a FlatExpr, AllocError> {
        Ok(*expr)
    }

    fn copy_stmt(&self, stmt: &FlatPart<'a>) -> Result<FlatPart<'a>, AllocError> {
        Ok(*stmt)
    }
}
