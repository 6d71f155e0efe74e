//! Nodes made of their parts. Want of memory drops the parts.
ghost use Rattle.std.specs.Prelude.{◌≡◌, IfOk};
ghost use Rattle.std.specs.Option.{option_map};
ghost use Rattle.ocl_inline.specs.Trees.{UnaryFlat, BinaryFlat, BothFlat, EitherFlat, ChooseFlat, CastFlat, LoadFlat, CallFlat, LostFlat, BuiltinFlat, ParenFlat, DeclareFlat, LocalArrayFlat, SetVariableFlat, SetElementFlat, CallStmtFlat, WhileFlat, DoFlat, ForFlat, ReturnFlat, BlockFlat, if_flat, written};
ghost use Rattle.ocl_inline.specs.Shapes.{expr_of, stmt_of, flat_trees, flat_arguments};

use crate::trees::{FlatArgument, FlatExpr, FlatStmt};
use ocl_ast::{AssignOp, BinOp, Gives, UnOp};
use ocl_program::{ArrayRef, Builtin};
use std::alloc::{AllocError, Global};
use vx_base::{Elem, Pos};

/// An operator before its operand.
pub fn unary(alloc: Global, op: UnOp, part: FlatExpr) -> Result<FlatExpr, AllocError>
    ensures { IfOk result (λ expr. expr_of expr ≡ UnaryFlat op (expr_of part)) }
{
    let part = Box::new(alloc, part)?;
    Ok(FlatExpr::Unary { op, part })
}

/// An operator between its operands.
pub fn binary(
    alloc: Global,
    op: BinOp,
    unsigned: bool,
    left: FlatExpr,
    right: FlatExpr,
) -> Result<FlatExpr, AllocError>
    ensures { IfOk result (λ expr. expr_of expr ≡ BinaryFlat op unsigned (expr_of left) (expr_of right)) }
{
    let left = Box::new(alloc, left)?;
    let right = Box::new(alloc, right)?;
    Ok(FlatExpr::Binary {
        op,
        unsigned,
        left,
        right,
    })
}

/// `&&`.
pub fn both(alloc: Global, left: FlatExpr, right: FlatExpr) -> Result<FlatExpr, AllocError>
    ensures { IfOk result (λ expr. expr_of expr ≡ BothFlat (expr_of left) (expr_of right)) }
{
    let left = Box::new(alloc, left)?;
    let right = Box::new(alloc, right)?;
    Ok(FlatExpr::Both { left, right })
}

/// `||`.
pub fn either(alloc: Global, left: FlatExpr, right: FlatExpr) -> Result<FlatExpr, AllocError>
    ensures { IfOk result (λ expr. expr_of expr ≡ EitherFlat (expr_of left) (expr_of right)) }
{
    let left = Box::new(alloc, left)?;
    let right = Box::new(alloc, right)?;
    Ok(FlatExpr::Either { left, right })
}

/// `test ? one : other`.
pub fn choose(
    alloc: Global,
    unsigned: bool,
    test: FlatExpr,
    one: FlatExpr,
    other: FlatExpr,
) -> Result<FlatExpr, AllocError>
    ensures { IfOk result (λ expr. expr_of expr ≡ ChooseFlat unsigned (expr_of test) (expr_of one) (expr_of other)) }
{
    let test = Box::new(alloc, test)?;
    let yes = Box::new(alloc, one)?;
    let no = Box::new(alloc, other)?;
    Ok(FlatExpr::Choose {
        unsigned,
        test,
        yes,
        no,
    })
}

/// A conversion.
pub fn cast(alloc: Global, elem: Elem, part: FlatExpr) -> Result<FlatExpr, AllocError>
    ensures { IfOk result (λ expr. expr_of expr ≡ CastFlat elem (expr_of part)) }
{
    let part = Box::new(alloc, part)?;
    Ok(FlatExpr::Cast { elem, part })
}

/// An element of an array.
pub fn load(
    alloc: Global,
    array: ArrayRef,
    elem: Elem,
    place: FlatExpr,
    pos: Pos,
) -> Result<FlatExpr, AllocError>
    ensures { IfOk result (λ expr. expr_of expr ≡ LoadFlat array elem (expr_of place) pos) }
{
    let place = Box::new(alloc, place)?;
    Ok(FlatExpr::Load {
        array,
        elem,
        place,
        pos,
    })
}

/// A call of a helper.
pub fn call(args: Vec<FlatArgument>, body: Vec<FlatStmt>) -> FlatExpr
    ensures { expr_of result ≡ CallFlat (flat_arguments args.items) (flat_trees body.items) }
{
    FlatExpr::Call { args, body }
}

/// A call that leads to no helper.
pub fn lost(args: Vec<FlatArgument>) -> FlatExpr
    ensures { expr_of result ≡ LostFlat (flat_arguments args.items) }
{
    FlatExpr::Lost { args }
}

/// A call of a built-in function.
pub fn builtin(which: Builtin, unsigned: bool, args: Vec<FlatArgument>) -> FlatExpr
    ensures { expr_of result ≡ BuiltinFlat which unsigned (flat_arguments args.items) }
{
    FlatExpr::Builtin {
        which,
        unsigned,
        args,
    }
}

/// An expression in parentheses.
pub fn paren(alloc: Global, part: FlatExpr) -> Result<FlatExpr, AllocError>
    ensures { IfOk result (λ expr. expr_of expr ≡ ParenFlat (expr_of part)) }
{
    let part = Box::new(alloc, part)?;
    Ok(FlatExpr::Paren(part))
}

/// An expression where one is written, as a part of a statement.
fn boxed(alloc: Global, value: Option<FlatExpr>) -> Result<Option<Box<FlatExpr>>, AllocError>
    ensures { IfOk result (λ held. option_map (λ b. b.value) held ≡ value) }
{
    match value {
        Some(value) => Ok(Some(Box::new(alloc, value)?)),
        None => Ok(None),
    }
}

/// A variable with its first value, where one is written.
pub fn declare(
    alloc: Global,
    variable: u32,
    elem: Elem,
    value: Option<FlatExpr>,
) -> Result<FlatStmt, AllocError>
    ensures { IfOk result (λ stmt. stmt_of stmt ≡ DeclareFlat variable elem (written (option_map expr_of value))) }
{
    let value = boxed(alloc, value)?;
    Ok(FlatStmt::Declare {
        variable,
        elem,
        value,
    })
}

/// A `__local` array.
pub fn local_array(alloc: Global, array: u32, count: FlatExpr) -> Result<FlatStmt, AllocError>
    ensures { IfOk result (λ stmt. stmt_of stmt ≡ LocalArrayFlat array (expr_of count)) }
{
    let count = Box::new(alloc, count)?;
    Ok(FlatStmt::LocalArray { array, count })
}

/// An assignment to a variable.
pub fn set_variable(
    alloc: Global,
    variable: u32,
    elem: Elem,
    op: AssignOp,
    unsigned: bool,
    value: Option<FlatExpr>,
) -> Result<FlatStmt, AllocError>
    ensures { IfOk result (λ stmt. stmt_of stmt ≡ SetVariableFlat variable elem op unsigned (written (option_map expr_of value))) }
{
    let value = boxed(alloc, value)?;
    Ok(FlatStmt::SetVariable {
        variable,
        elem,
        op,
        unsigned,
        value,
    })
}

/// An assignment to an element of an array.
pub fn set_element(
    alloc: Global,
    array: ArrayRef,
    elem: Elem,
    place: FlatExpr,
    op: AssignOp,
    unsigned: bool,
    value: Option<FlatExpr>,
    pos: Pos,
) -> Result<FlatStmt, AllocError>
    ensures { IfOk result (λ stmt. stmt_of stmt ≡ SetElementFlat array elem (expr_of place) op unsigned (written (option_map expr_of value)) pos) }
{
    let place = Box::new(alloc, place)?;
    let value = boxed(alloc, value)?;
    Ok(FlatStmt::SetElement {
        array,
        elem,
        place,
        op,
        unsigned,
        value,
        pos,
    })
}

/// A call whose value is not used.
pub fn call_stmt(alloc: Global, call: FlatExpr) -> Result<FlatStmt, AllocError>
    ensures { IfOk result (λ stmt. stmt_of stmt ≡ CallStmtFlat (expr_of call)) }
{
    let call = Box::new(alloc, call)?;
    Ok(FlatStmt::Call(call))
}

/// `if`, with or without `else`.
pub fn if_stmt(
    alloc: Global,
    test: FlatExpr,
    one: FlatStmt,
    other: Option<FlatStmt>,
) -> Result<FlatStmt, AllocError>
    ensures { IfOk result (λ stmt. stmt_of stmt ≡ if_flat (expr_of test) (stmt_of one) (option_map stmt_of other)) }
{
    let test = Box::new(alloc, test)?;
    let yes = Box::new(alloc, one)?;
    let no = match other {
        Some(other) => Some(Box::new(alloc, other)?),
        None => None,
    };
    Ok(FlatStmt::If { test, yes, no })
}

/// `while`.
pub fn while_stmt(alloc: Global, test: FlatExpr, body: FlatStmt) -> Result<FlatStmt, AllocError>
    ensures { IfOk result (λ stmt. stmt_of stmt ≡ WhileFlat (expr_of test) (stmt_of body)) }
{
    let test = Box::new(alloc, test)?;
    let body = Box::new(alloc, body)?;
    Ok(FlatStmt::While { test, body })
}

/// `do`.
pub fn do_stmt(alloc: Global, body: FlatStmt, test: FlatExpr) -> Result<FlatStmt, AllocError>
    ensures { IfOk result (λ stmt. stmt_of stmt ≡ DoFlat (stmt_of body) (expr_of test)) }
{
    let body = Box::new(alloc, body)?;
    let test = Box::new(alloc, test)?;
    Ok(FlatStmt::Do { body, test })
}

/// `for`.
pub fn for_stmt(
    alloc: Global,
    first: Vec<FlatStmt>,
    test: Option<FlatExpr>,
    step: Vec<FlatStmt>,
    body: FlatStmt,
) -> Result<FlatStmt, AllocError>
    ensures { IfOk result (λ stmt. stmt_of stmt ≡ ForFlat (flat_trees first.items) (written (option_map expr_of test)) (flat_trees step.items) (stmt_of body)) }
{
    let test = boxed(alloc, test)?;
    let body = Box::new(alloc, body)?;
    Ok(FlatStmt::For {
        first,
        test,
        step,
        body,
    })
}

/// `return`, in a function that gives this back.
pub fn return_stmt(
    alloc: Global,
    gives: Gives,
    value: Option<FlatExpr>,
) -> Result<FlatStmt, AllocError>
    ensures { IfOk result (λ stmt. stmt_of stmt ≡ ReturnFlat gives (written (option_map expr_of value))) }
{
    let value = boxed(alloc, value)?;
    Ok(FlatStmt::Return { gives, value })
}

/// Statements in braces.
pub fn block(items: Vec<FlatStmt>) -> FlatStmt
    ensures { stmt_of result ≡ BlockFlat (flat_trees items.items) }
{
    FlatStmt::Block(items)
}
