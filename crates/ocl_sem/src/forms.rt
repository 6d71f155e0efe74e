//! The functions of a file as a form of program for the machine.
ghost use Rattle.std.specs.Prelude.{◌≡◌, OnOk, map};
ghost use Rattle.ocl_program.specs.Shapes.{function_node};
ghost use Rattle.ocl_sem.specs.Source.{stmt_tasks};
ghost use Rattle.ocl_sem.specs.Views.{part_node, scope_of, source_tasks};

use crate::placed::{PlacedExpr, PlacedStmt, SourcePart, SourceTasks};
use crate::scopes::Scope;
use crate::statements::{push_stmt, push_stmts};
use crate::unfold::{Source, push_value};
use std::alloc::AllocError;
use std::rc::Rc;
use task_machine::Form;

/// The tasks of a statement, or of statements in order.
fn push_part<'a>(
    tasks: &mut SourceTasks<'a>,
    source: &Source<'a>,
    scope: &Rc<Scope<'a>>,
    part: SourcePart<'a>,
) -> Result<(), AllocError>
    ensures { OnOk result (source_tasks tasks.new ≡ stmt_tasks (map function_node source.now.program.now) (scope_of scope.now.value) (part_node part.entry) (source_tasks tasks.old)) }
{
    match part {
        SourcePart::One(stmt) => push_stmt(tasks, source, scope, stmt),
        SourcePart::Block(stmts) => push_stmts(tasks, source, scope, stmts),
    }
}

impl<'a> Form for Source<'a> {
    ghost use Rattle.ocl_sem.specs.Source.{PlacedExpr as AnyExpr, PlacedStmt as AnyStmt, source_parts};
    ghost use Rattle.ocl_sem.specs.Views.{expr_of as seen_expr, stmt_of as seen_stmt};

    type Expr = PlacedExpr<'a>;

    type Stmt = PlacedStmt<'a>;

    ghost Value = { AnyExpr };

    ghost Body = { AnyStmt };

    ghost expr_of = { seen_expr };

    ghost stmt_of = { seen_stmt };

    ghost parts = { λ source. source_parts (map function_node source.program.now) };

    fn push_value(
        &self,
        tasks: &mut SourceTasks<'a>,
        expr: PlacedExpr<'a>,
    ) -> Result<(), AllocError> {
        push_value(tasks, self, &expr.scope, expr.expr)
    }

    fn push_body(
        &self,
        tasks: &mut SourceTasks<'a>,
        stmt: PlacedStmt<'a>,
    ) -> Result<(), AllocError> {
        push_part(tasks, self, &stmt.scope, stmt.part)
    }

    fn copy_expr(&self, expr: &PlacedExpr<'a>) -> Result<PlacedExpr<'a>, AllocError> {
        expr.copy()
    }

    fn copy_stmt(&self, stmt: &PlacedStmt<'a>) -> Result<PlacedStmt<'a>, AllocError> {
        stmt.copy()
    }
}
