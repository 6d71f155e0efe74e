//! The typing of statements that have no statements inside them.
ghost use Rattle.std.specs.Prelude.{◌≡◌, option_map};
ghost use Rattle.ocl_ast.specs.Shapes.{arg_trees, target_tree, tree_of};
ghost use Rattle.ocl_ast.specs.Trees.{AssignTree, CallStmtTree, DeclareTree, LocalArrayTree, ReturnTree};
ghost use Rattle.ocl_types.specs.Answers.{MaybeTo, StmtTo, TypesTo, placed_in, standing_of};
ghost use Rattle.ocl_program.specs.Nodes.{BarrierNode};
ghost use Rattle.ocl_program.specs.Shapes.{stmt_node};
ghost use Rattle.ocl_types.specs.Exprs.{typed, typed_option as typed_option_of};
ghost use Rattle.ocl_types.specs.Stmts.{Standing as StandingIn, jump_in as jump_in_of, one_more, typed_stmt as typed_stmt_of, with_calls};
ghost use Rattle.ocl_types.specs.Tables.{NumbersOf, trees_of};

use crate::calls::whole_call;
use crate::changes::{change, typed_target};
use crate::counts::typed_count;
use crate::exprs::{MaybePart, typed_args, typed_expr, typed_option};
use crate::faults::TypeFault;
use crate::functions::{Functions, meaning_of};
use crate::parts::TypedPart;
use crate::standing::{Place, Standing, next_number};
use crate::uses::as_callee;
use ocl_ast::{AssignOp, Expr, Gives, Ident, Target};
use ocl_program::{LocalArray, TypedStmt};
use std::alloc::Global;
use vx_base::{Elem, Pos};

/// Types an expression of a statement.
pub fn expr_in(
    alloc: Global,
    functions: &Functions<'_>,
    st: &mut Standing<'_>,
    expr: &Expr,
) -> Result<TypedPart, TypeFault>
    requires { NumbersOf functions.now.numbers.entries (trees_of functions.now.functions.now) }
    ensures judged { TypesTo result st.new.calls.items (typed (trees_of functions.now.functions.now) st.old.scopes st.old.calls.items (tree_of expr.now)) }
    ensures others { standing_of st.new ≡ with_calls st.new.calls.items (standing_of st.old) }
{
    typed_expr(alloc, functions, &st.scopes, &mut st.calls, expr)
}

/// Types an expression of a statement that may be left out.
pub fn option_in(
    alloc: Global,
    functions: &Functions<'_>,
    st: &mut Standing<'_>,
    expr: &Option<Expr>,
) -> Result<MaybePart, TypeFault>
    requires { NumbersOf functions.now.numbers.entries (trees_of functions.now.functions.now) }
    ensures judged { MaybeTo result st.new.calls.items (typed_option_of (trees_of functions.now.functions.now) st.old.scopes st.old.calls.items (option_map tree_of expr.now)) }
    ensures others { standing_of st.new ≡ with_calls st.new.calls.items (standing_of st.old) }
{
    typed_option(alloc, functions, &st.scopes, &mut st.calls, expr)
}

/// Types a declaration of a variable.
#[tactic(auto, using(crate::proofs::Steps::fault_onward, crate::proofs::Steps::fault_behind, crate::proofs::Rules::stmt_behind))]
pub fn declare<'a>(
    alloc: Global,
    functions: &Functions<'_>,
    place: Place,
    st: &mut Standing<'a>,
    elem: Elem,
    constant: bool,
    name: &'a Ident,
    value: &Option<Expr>,
) -> Result<TypedStmt, TypeFault>
    requires { NumbersOf functions.now.numbers.entries (trees_of functions.now.functions.now) }
    ensures { StmtTo result (standing_of st.new) (typed_stmt_of (placed_in (trees_of functions.now.functions.now) place) (standing_of st.old) (DeclareTree elem constant name.now (option_map tree_of value.now))) }
{
    let variable = st.variables;
    st.declare_variable(alloc, name, elem, constant)?;
    let value = option_in(alloc, functions, st, value)?;
    Ok(TypedStmt::Declare {
        variable,
        elem,
        value: value.expr,
    })
}

/// Types a declaration of a `__local` array.
#[tactic(auto, using(crate::proofs::Steps::fault_onward, crate::proofs::Steps::fault_behind, crate::proofs::Rules::stmt_behind))]
pub fn declare_array<'a>(
    alloc: Global,
    functions: &Functions<'_>,
    place: Place,
    st: &mut Standing<'a>,
    elem: Elem,
    name: &'a Ident,
    count: &Expr,
) -> Result<TypedStmt, TypeFault>
    requires { NumbersOf functions.now.numbers.entries (trees_of functions.now.functions.now) }
    ensures { StmtTo result (standing_of st.new) (typed_stmt_of (placed_in (trees_of functions.now.functions.now) place) (standing_of st.old) (LocalArrayTree elem name.now (tree_of count.now))) }
{
    let array = u32::try_from(st.arrays.len()).unwrap_or(u32::MAX);
    st.declare_array(alloc, name, elem, array)?;
    let count = typed_count(alloc, functions, place, name.pos, count)?;
    st.arrays.push(LocalArray {
        elem,
        count: count.value,
    })?;
    Ok(TypedStmt::LocalArray {
        array,
        count: count.expr,
    })
}

/// Types an assignment.
#[tactic(auto, using(crate::proofs::Steps::fault_onward, crate::proofs::Steps::fault_behind, crate::proofs::Rules::stmt_behind))]
pub fn assign(
    alloc: Global,
    functions: &Functions<'_>,
    place: Place,
    st: &mut Standing<'_>,
    target: &Target,
    op: AssignOp,
    value: &Option<Expr>,
    pos: Pos,
) -> Result<TypedStmt, TypeFault>
    requires { NumbersOf functions.now.numbers.entries (trees_of functions.now.functions.now) }
    ensures { StmtTo result (standing_of st.new) (typed_stmt_of (placed_in (trees_of functions.now.functions.now) place) (standing_of st.old) (AssignTree (target_tree target.now) op (option_map tree_of value.now) pos)) }
{
    let target = typed_target(alloc, functions, &st.scopes, &mut st.calls, target)?;
    let value = option_in(alloc, functions, st, value)?;
    Ok(change(target, op, value))
}

/// Types a call whose value is not used.
#[tactic(auto, using(crate::proofs::Steps::fault_onward, crate::proofs::Steps::fault_behind, crate::proofs::Rules::stmt_behind))]
pub fn call(
    alloc: Global,
    functions: &Functions<'_>,
    place: Place,
    st: &mut Standing<'_>,
    name: &Ident,
    args: &[Expr],
) -> Result<TypedStmt, TypeFault>
    requires { NumbersOf functions.now.numbers.entries (trees_of functions.now.functions.now) }
    ensures { StmtTo result (standing_of st.new) (typed_stmt_of (placed_in (trees_of functions.now.functions.now) place) (standing_of st.old) (CallStmtTree name.now (arg_trees args.now))) }
{
    let meaning = meaning_of(functions, &st.scopes, name.text.as_slice());
    let callee = as_callee(functions, name.pos, meaning)?;
    let args = typed_args(alloc, functions, &st.scopes, &mut st.calls, callee, args)?;
    let call = whole_call(name.pos, callee, &mut st.calls, args)?;
    Ok(TypedStmt::Call(call.expr))
}

/// Numbers a barrier.
pub fn barrier(st: &mut Standing<'_>) -> TypedStmt
    ensures node { stmt_node result ≡ BarrierNode st.old.sites }
    ensures after { standing_of st.new ≡ record (standing_of st.old) { sites = one_more st.old.sites } }
{
    let site = st.sites;
    st.sites = next_number(site);
    TypedStmt::Barrier { site }
}

/// Types `return`: a value stands exactly where the function gives one.
#[tactic(auto, using(crate::proofs::Steps::fault_onward, crate::proofs::Steps::fault_behind, crate::proofs::Rules::stmt_behind))]
pub fn leave(
    alloc: Global,
    functions: &Functions<'_>,
    place: Place,
    st: &mut Standing<'_>,
    value: &Option<Expr>,
    pos: Pos,
) -> Result<TypedStmt, TypeFault>
    requires { NumbersOf functions.now.numbers.entries (trees_of functions.now.functions.now) }
    ensures { StmtTo result (standing_of st.new) (typed_stmt_of (placed_in (trees_of functions.now.functions.now) place) (standing_of st.old) (ReturnTree (option_map tree_of value.now) pos)) }
{
    let wants = matches!(place.gives, Gives::Value(_));
    if wants != value.is_some() {
        return Err(TypeFault::Mismatch(pos));
    }
    let value = option_in(alloc, functions, st, value)?;
    Ok(TypedStmt::Return(value.expr))
}

/// `break` or `continue`: a loop is round it.
pub fn jump(place: Place, pos: Pos, jump: TypedStmt) -> Result<TypedStmt, TypeFault>
    ensures { (st : StandingIn) → StmtTo result st (jump_in_of place.in_loop pos (stmt_node jump) st) }
{
    if place.in_loop {
        Ok(jump)
    } else {
        Err(TypeFault::Mismatch(pos))
    }
}
