//! Forms of programs.
ghost use Rattle.std.specs.Prelude.{◌≡◌, IfOk, OnOk};
ghost use Rattle.task_machine.specs.Tasks.{Parts};
ghost use Rattle.task_machine.specs.Views.{tasks_by};

use crate::tasks::Tasks;
use std::alloc::AllocError;

/// A form of program: its expressions and statements, which wait as they are until they are reached, and how they become
/// tasks. Contracts see expressions as `Value`, and statements as `Body`.
pub trait Form {
    /// An expression that waits.
    type Expr: Drop;
    /// A statement that waits.
    type Stmt: Drop;

    ghost Value: { Type 0 };

    ghost Body: { Type 0 };

    ghost expr_of: { Self.Expr → Value };

    ghost stmt_of: { Self.Stmt → Body };

    ghost parts: { Self → Parts Value Body };

    /// Puts the tasks of an expression's value in front of others.
    fn push_value(
        &self,
        tasks: &mut Tasks<Self::Expr, Self::Stmt>,
        expr: Self::Expr,
    ) -> Result<(), AllocError>
        ensures { OnOk result (tasks_by expr_of stmt_of tasks.new ≡ (parts self.now).value (expr_of expr) (tasks_by expr_of stmt_of tasks.old)) };

    /// Puts the tasks of a statement in front of others.
    fn push_body(
        &self,
        tasks: &mut Tasks<Self::Expr, Self::Stmt>,
        stmt: Self::Stmt,
    ) -> Result<(), AllocError>
        ensures { OnOk result (tasks_by expr_of stmt_of tasks.new ≡ (parts self.now).body (stmt_of stmt) (tasks_by expr_of stmt_of tasks.old)) };

    /// The same expression once more.
    fn copy_expr(&self, expr: &Self::Expr) -> Result<Self::Expr, AllocError>
        ensures { IfOk result (λ copy. expr_of copy ≡ expr_of expr.now) };

    /// The same statement once more.
    fn copy_stmt(&self, stmt: &Self::Stmt) -> Result<Self::Stmt, AllocError>
        ensures { IfOk result (λ copy. stmt_of copy ≡ stmt_of stmt.now) };
}
