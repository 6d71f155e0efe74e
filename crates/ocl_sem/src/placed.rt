//! Expressions and statements that wait, each with the active call that it stands in.
ghost use Rattle.std.specs.Prelude.{◌≡◌, IfOk, option_map};
ghost use Rattle.ocl_program.specs.Nodes.{BlockNode};
ghost use Rattle.ocl_program.specs.Shapes.{node_of, stmt_node, typed_stmts};
ghost use Rattle.ocl_sem.specs.Source.{loop_in};
ghost use Rattle.ocl_sem.specs.Views.{expr_of, part_node, placed_expr, placed_stmt, scope_of, source_loop, stmt_of};

use crate::scopes::Scope;
use ocl_program::{TypedExpr, TypedStmt};
use std::alloc::{AllocError, Global};
use std::rc::Rc;
use task_machine::{Loop, Task, Tasks};

/// An expression within an active call.
#[derive(Drop)]
pub struct PlacedExpr<'a> {
    /// The call.
    pub scope: Rc<Scope<'a>>,
    /// The expression.
    pub expr: &'a TypedExpr,
}

/// A statement, or statements in order.
#[derive(Clone, Copy)]
pub enum SourcePart<'a> {
    /// One statement.
    One(&'a TypedStmt),
    /// Statements in order, as a block.
    Block(&'a [TypedStmt]),
}

/// A statement within an active call.
#[derive(Drop)]
pub struct PlacedStmt<'a> {
    /// The call.
    pub scope: Rc<Scope<'a>>,
    /// The statement.
    pub part: SourcePart<'a>,
}

/// A task of a kernel.
pub type SourceTask<'a> = Task<PlacedExpr<'a>, PlacedStmt<'a>>;

/// What is left to do in a kernel.
pub type SourceTasks<'a> = Tasks<PlacedExpr<'a>, PlacedStmt<'a>>;

/// A loop within an active call.
pub type SourceLoop<'a> = Loop<PlacedExpr<'a>, PlacedStmt<'a>>;

impl<'a> PlacedExpr<'a> {
    /// An expression within a call.
    pub fn new(scope: &Rc<Scope<'a>>, expr: &'a TypedExpr) -> Result<PlacedExpr<'a>, AllocError>
        ensures { IfOk result (λ placed. expr_of placed ≡ placed_expr (scope_of scope.now.value) (node_of expr.now)) }
    {
        Ok(PlacedExpr {
            scope: scope.clone()?,
            expr,
        })
    }

    /// The same once more.
    pub fn copy(&self) -> Result<PlacedExpr<'a>, AllocError>
        ensures { IfOk result (λ placed. expr_of placed ≡ expr_of self.now) }
    {
        PlacedExpr::new(&self.scope, self.expr)
    }
}

impl<'a> PlacedStmt<'a> {
    /// A statement within a call.
    pub fn new(scope: &Rc<Scope<'a>>, part: SourcePart<'a>) -> Result<PlacedStmt<'a>, AllocError>
        ensures { IfOk result (λ placed. stmt_of placed ≡ placed_stmt (scope_of scope.now.value) (part_node part.entry)) }
    {
        Ok(PlacedStmt {
            scope: scope.clone()?,
            part,
        })
    }

    /// The same once more.
    pub fn copy(&self) -> Result<PlacedStmt<'a>, AllocError>
        ensures { IfOk result (λ placed. stmt_of placed ≡ stmt_of self.now) }
    {
        PlacedStmt::new(&self.scope, self.part)
    }
}

/// A loop within a call.
pub fn place_loop<'a>(
    alloc: Global,
    scope: &Rc<Scope<'a>>,
    test: Option<&'a TypedExpr>,
    step: &'a [TypedStmt],
    body: &'a TypedStmt,
) -> Result<SourceLoop<'a>, AllocError>
    ensures { IfOk result (λ turning. source_loop turning ≡ loop_in (scope_of scope.now.value) (option_map (λ e. node_of e.now) test.entry) (BlockNode (typed_stmts step.now)) (stmt_node body.now)) }
{
    let test = match test {
        Some(test) => Some(PlacedExpr::new(scope, test)?),
        None => None,
    };
    let step = PlacedStmt::new(scope, SourcePart::Block(step))?;
    let body = PlacedStmt::new(scope, SourcePart::One(body))?;
    Loop::new(alloc, test, step, body)
}
