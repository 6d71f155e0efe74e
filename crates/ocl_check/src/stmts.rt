//! The typing of statements.
ghost use Rattle.std.specs.Prelude.{[], option_map};
ghost use Rattle.ocl_ast.specs.Shapes.{stmt_tree, stmt_trees, tree_of};
ghost use Rattle.ocl_ast.specs.Trees.{BlockTree, DoTree, ForTree, IfElseTree, IfTree, WhileTree};
ghost use Rattle.ocl_types.specs.Answers.{StmtTo, StmtsTo, placed_in, standing_of};
ghost use Rattle.ocl_types.specs.Stmts.{typed_stmt as typed_stmt_of, typed_stmts as typed_stmts_of};
ghost use Rattle.ocl_types.specs.Tables.{NumbersOf, trees_of};

use ocl_ast::{Expr, Stmt};
use ocl_program::{TypedStmt, nodes};
use ocl_types::TypeFault;
use ocl_types::functions::Functions;
use ocl_types::scopes::NameTable;
use ocl_types::simple::{
    assign, barrier, call, declare, declare_array, expr_in, jump, leave, option_in,
};
use ocl_types::standing::{Place, Standing};
use std::alloc::Global;

/// Types a statement. After a fault what the function has so far is not to be used.
#[cycle(stmts)]
pub fn typed_stmt<'a>(
    alloc: Global,
    functions: &Functions<'_>,
    place: Place,
    st: &mut Standing<'a>,
    stmt: &'a Stmt,
) -> Result<TypedStmt, TypeFault>
    requires { NumbersOf functions.now.numbers.entries (trees_of functions.now.functions.now) }
    ensures { StmtTo result (standing_of st.new) (typed_stmt_of (placed_in (trees_of functions.now.functions.now) place) (standing_of st.old) (stmt_tree stmt.now)) }
{
    match stmt {
        Stmt::Declare {
            elem,
            constant,
            name,
            value,
        } => declare(alloc, functions, place, st, *elem, *constant, name, value),
        Stmt::LocalArray { elem, name, count } => {
            declare_array(alloc, functions, place, st, *elem, name, count)
        }
        Stmt::Assign {
            target,
            op,
            value,
            pos,
        } => assign(alloc, functions, place, st, target, *op, value, *pos),
        Stmt::Call { name, args } => call(alloc, functions, place, st, name, args),
        Stmt::Barrier { .. } => Ok(barrier(st)),
        Stmt::If {
            test,
            yes,
            no: None,
        } => typed_if(alloc, functions, place, st, test, yes),
        Stmt::If {
            test,
            yes,
            no: Some(no),
        } => typed_if_else(alloc, functions, place, st, test, yes, no),
        Stmt::While { test, body } => typed_while(alloc, functions, place, st, test, body),
        Stmt::Do { body, test } => typed_do(alloc, functions, place, st, body, test),
        Stmt::For {
            first,
            test,
            step,
            body,
        } => typed_for(alloc, functions, place, st, first, test, step, body),
        Stmt::Break(pos) => jump(place, *pos, TypedStmt::Break),
        Stmt::Continue(pos) => jump(place, *pos, TypedStmt::Continue),
        Stmt::Return { value, pos } => leave(alloc, functions, place, st, value, *pos),
        Stmt::Block(items) => typed_block(alloc, functions, place, st, items),
        Stmt::Empty => Ok(TypedStmt::Empty),
    }
}

/// Types `if` without `else`.
#[cycle(stmts)]
#[tactic(auto, using(crate::proofs::Parts::fault_onward, crate::proofs::Parts::fault_behind, crate::proofs::Parts::stmt_behind))]
fn typed_if<'a>(
    alloc: Global,
    functions: &Functions<'_>,
    place: Place,
    st: &mut Standing<'a>,
    test: &Expr,
    yes: &'a Stmt,
) -> Result<TypedStmt, TypeFault>
    requires { NumbersOf functions.now.numbers.entries (trees_of functions.now.functions.now) }
    ensures { StmtTo result (standing_of st.new) (typed_stmt_of (placed_in (trees_of functions.now.functions.now) place) (standing_of st.old) (IfTree (tree_of test.now) (stmt_tree yes.now))) }
{
    let inside = Place {
        outermost: false,
        ..place
    };
    let test = expr_in(alloc, functions, st, test)?;
    let one = typed_stmt(alloc, functions, inside, st, yes)?;
    Ok(nodes::if_stmt(alloc, test.expr, one, None)?)
}

/// Types `if` with `else`.
#[cycle(stmts)]
#[tactic(auto, using(crate::proofs::Parts::fault_onward, crate::proofs::Parts::fault_behind, crate::proofs::Parts::stmt_behind))]
fn typed_if_else<'a>(
    alloc: Global,
    functions: &Functions<'_>,
    place: Place,
    st: &mut Standing<'a>,
    test: &Expr,
    yes: &'a Stmt,
    no: &'a Stmt,
) -> Result<TypedStmt, TypeFault>
    requires { NumbersOf functions.now.numbers.entries (trees_of functions.now.functions.now) }
    ensures { StmtTo result (standing_of st.new) (typed_stmt_of (placed_in (trees_of functions.now.functions.now) place) (standing_of st.old) (IfElseTree (tree_of test.now) (stmt_tree yes.now) (stmt_tree no.now))) }
{
    let inside = Place {
        outermost: false,
        ..place
    };
    let test = expr_in(alloc, functions, st, test)?;
    let one = typed_stmt(alloc, functions, inside, st, yes)?;
    let other = typed_stmt(alloc, functions, inside, st, no)?;
    Ok(nodes::if_stmt(alloc, test.expr, one, Some(other))?)
}

/// Types `while`.
#[cycle(stmts)]
#[tactic(auto, using(crate::proofs::Parts::fault_onward, crate::proofs::Parts::fault_behind, crate::proofs::Parts::stmt_behind))]
fn typed_while<'a>(
    alloc: Global,
    functions: &Functions<'_>,
    place: Place,
    st: &mut Standing<'a>,
    test: &Expr,
    body: &'a Stmt,
) -> Result<TypedStmt, TypeFault>
    requires { NumbersOf functions.now.numbers.entries (trees_of functions.now.functions.now) }
    ensures { StmtTo result (standing_of st.new) (typed_stmt_of (placed_in (trees_of functions.now.functions.now) place) (standing_of st.old) (WhileTree (tree_of test.now) (stmt_tree body.now))) }
{
    let turn = Place {
        in_loop: true,
        outermost: false,
        ..place
    };
    let test = expr_in(alloc, functions, st, test)?;
    let body = typed_stmt(alloc, functions, turn, st, body)?;
    Ok(nodes::while_stmt(alloc, test.expr, body)?)
}

/// Types `do`, whose test stands behind its body.
#[cycle(stmts)]
#[tactic(auto, using(crate::proofs::Parts::fault_onward, crate::proofs::Parts::fault_behind, crate::proofs::Parts::stmt_behind))]
fn typed_do<'a>(
    alloc: Global,
    functions: &Functions<'_>,
    place: Place,
    st: &mut Standing<'a>,
    body: &'a Stmt,
    test: &Expr,
) -> Result<TypedStmt, TypeFault>
    requires { NumbersOf functions.now.numbers.entries (trees_of functions.now.functions.now) }
    ensures { StmtTo result (standing_of st.new) (typed_stmt_of (placed_in (trees_of functions.now.functions.now) place) (standing_of st.old) (DoTree (stmt_tree body.now) (tree_of test.now))) }
{
    let turn = Place {
        in_loop: true,
        outermost: false,
        ..place
    };
    let body = typed_stmt(alloc, functions, turn, st, body)?;
    let test = expr_in(alloc, functions, st, test)?;
    Ok(nodes::do_stmt(alloc, body, test.expr)?)
}

/// Types `for`: its head and its body share a scope.
#[cycle(stmts)]
#[tactic(auto, using(crate::proofs::Parts::fault_onward, crate::proofs::Parts::fault_behind, crate::proofs::Parts::stmt_behind, crate::proofs::Parts::nodes_seen))]
fn typed_for<'a>(
    alloc: Global,
    functions: &Functions<'_>,
    place: Place,
    st: &mut Standing<'a>,
    first: &'a [Stmt],
    test: &Option<Expr>,
    step: &'a [Stmt],
    body: &'a Stmt,
) -> Result<TypedStmt, TypeFault>
    requires { NumbersOf functions.now.numbers.entries (trees_of functions.now.functions.now) }
    ensures { StmtTo result (standing_of st.new) (typed_stmt_of (placed_in (trees_of functions.now.functions.now) place) (standing_of st.old) (ForTree (stmt_trees first.now) (option_map tree_of test.now) (stmt_trees step.now) (stmt_tree body.now))) }
{
    let inside = Place {
        outermost: false,
        ..place
    };
    let turn = Place {
        in_loop: true,
        ..inside
    };
    st.scopes.open(NameTable::new(alloc))?;
    let first = typed_stmts(alloc, functions, inside, st, first)?;
    let test = option_in(alloc, functions, st, test)?;
    let step = typed_stmts(alloc, functions, inside, st, step)?;
    let body = typed_stmt(alloc, functions, turn, st, body)?;
    st.scopes.close();
    Ok(nodes::for_stmt(alloc, first, test.expr, step, body)?)
}

/// Types a block, which is a scope.
#[cycle(stmts)]
#[tactic(auto, using(crate::proofs::Parts::fault_onward, crate::proofs::Parts::fault_behind, crate::proofs::Parts::stmt_behind, crate::proofs::Parts::nodes_seen))]
fn typed_block<'a>(
    alloc: Global,
    functions: &Functions<'_>,
    place: Place,
    st: &mut Standing<'a>,
    items: &'a [Stmt],
) -> Result<TypedStmt, TypeFault>
    requires { NumbersOf functions.now.numbers.entries (trees_of functions.now.functions.now) }
    ensures { StmtTo result (standing_of st.new) (typed_stmt_of (placed_in (trees_of functions.now.functions.now) place) (standing_of st.old) (BlockTree (stmt_trees items.now))) }
{
    let inside = Place {
        outermost: false,
        ..place
    };
    st.scopes.open(NameTable::new(alloc))?;
    let items = typed_stmts(alloc, functions, inside, st, items)?;
    st.scopes.close();
    Ok(nodes::block(items))
}

/// Types statements in order.
#[cycle(stmts)]
pub fn typed_stmts<'a>(
    alloc: Global,
    functions: &Functions<'_>,
    place: Place,
    st: &mut Standing<'a>,
    stmts: &'a [Stmt],
) -> Result<Vec<TypedStmt>, TypeFault>
    requires { NumbersOf functions.now.numbers.entries (trees_of functions.now.functions.now) }
    ensures { StmtsTo result (standing_of st.new) (typed_stmts_of (placed_in (trees_of functions.now.functions.now) place) [] (standing_of st.old) (stmt_trees stmts.now)) }
{
    let mut done = Vec::new(alloc);
    for stmt in stmts {
        match typed_stmt(alloc, functions, place, st, stmt) {
            Ok(stmt) => match done.push(stmt) {
                Ok(()) => {}
                Err(_full) => return Err(TypeFault::Memory),
            },
            Err(fault) => return Err(fault),
        }
    }
    Ok(done)
}
