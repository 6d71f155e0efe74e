//! Expressions as tasks. A stack takes what is done last first.
ghost use Rattle.std.specs.Prelude.{◌≡◌, ◌+◌, IfOk, OnOk, count_by, map, option_map, take};
ghost use Rattle.ocl_program.specs.Measures.{cut};
ghost use Rattle.ocl_program.specs.Nodes.{BlockNode, arg_nodes};
ghost use Rattle.ocl_program.specs.Shapes.{argument_node, function_node, node_of, typed_stmts};
ghost use Rattle.ocl_sem.specs.Source.{args_tasks, binding as binding_of, bound_as as bound_as_of, call_at, is_scalar as is_scalar_of, scope_at, value_tasks, values_tasks, variable_in};
ghost use Rattle.ocl_sem.specs.Views.{argument_tasks, bound_tasks, placed_stmt, scope_of, source_task, source_tasks, stmt_of};

use crate::placed::{PlacedExpr, PlacedStmt, SourcePart, SourceTask, SourceTasks};
use crate::scopes::{Callee, Scope};
use ocl_ast::Param;
use ocl_program::{Argument, CallSite, TypedExpr, TypedFunction};
use std::alloc::{AllocError, Global};
use std::rc::Rc;
use task_machine::Task;
use vx_base::ParamKind;

/// The functions of a file, as a form of program.
#[derive(Clone, Copy)]
pub struct Source<'a> {
    /// Where active calls are kept.
    pub alloc: Global,
    /// The functions.
    pub program: &'a [TypedFunction],
}

/// The value of an expression onto the stack.
#[cycle(unfold)]
pub fn push_value<'a>(
    tasks: &mut SourceTasks<'a>,
    source: &Source<'a>,
    scope: &Rc<Scope<'a>>,
    expr: &'a TypedExpr,
) -> Result<(), AllocError>
    ensures { OnOk result (source_tasks tasks.new ≡ value_tasks (map function_node source.now.program.now) (scope_of scope.now.value) (node_of expr.now) (source_tasks tasks.old)) }
{
    match expr {
        TypedExpr::Number { value, .. } => tasks.push(Task::Number(*value)),
        TypedExpr::Variable { variable, .. } => {
            tasks.push(Task::Variable(scope.variable(*variable)))
        }
        TypedExpr::Unary { op, part } => {
            tasks.push(Task::Unary(*op))?;
            push_value(tasks, source, scope, part)
        }
        TypedExpr::Binary {
            op,
            unsigned,
            left,
            right,
        } => {
            tasks.push(Task::Binary {
                op: *op,
                unsigned: *unsigned,
            })?;
            push_value(tasks, source, scope, right)?;
            push_value(tasks, source, scope, left)
        }
        TypedExpr::Both { left, right } => {
            tasks.push(Task::AndThen(PlacedExpr::new(scope, right)?))?;
            push_value(tasks, source, scope, left)
        }
        TypedExpr::Either { left, right } => {
            tasks.push(Task::OrElse(PlacedExpr::new(scope, right)?))?;
            push_value(tasks, source, scope, left)
        }
        TypedExpr::Choose { test, yes, no, .. } => {
            tasks.push(Task::Choose {
                one: PlacedExpr::new(scope, yes)?,
                other: PlacedExpr::new(scope, no)?,
            })?;
            push_value(tasks, source, scope, test)
        }
        TypedExpr::Cast { elem, part } => {
            tasks.push(Task::Fit(*elem))?;
            push_value(tasks, source, scope, part)
        }
        TypedExpr::Load {
            array,
            place,
            pos,
            ..
        } => {
            tasks.push(Task::Load {
                array: scope.array(*array),
                pos: *pos,
            })?;
            push_value(tasks, source, scope, place)
        }
        TypedExpr::Call { call, args } => push_call(tasks, source, scope, *call, args.as_slice()),
        TypedExpr::Builtin {
            which,
            unsigned,
            args,
        } => {
            tasks.push(Task::Call {
                which: *which,
                unsigned: *unsigned,
            })?;
            push_values(tasks, source, scope, args.as_slice())
        }
        TypedExpr::Paren(part) => push_value(tasks, source, scope, part),
    }
}

/// The values of a built-in function's arguments.
#[cycle(unfold)]
fn push_values<'a>(
    tasks: &mut SourceTasks<'a>,
    source: &Source<'a>,
    scope: &Rc<Scope<'a>>,
    args: &'a [Argument],
) -> Result<(), AllocError>
    ensures { OnOk result (source_tasks tasks.new ≡ values_tasks (map function_node source.now.program.now) (scope_of scope.now.value) (arg_nodes (map argument_node args.now)) (source_tasks tasks.old)) }
{
    for k in (0..args.len()).rev() {
        push_argument(tasks, source, scope, &args[k])?;
    }
    Ok(())
}

/// The value of an argument, where it is one.
#[cycle(unfold)]
fn push_argument<'a>(
    tasks: &mut SourceTasks<'a>,
    source: &Source<'a>,
    scope: &Rc<Scope<'a>>,
    arg: &'a Argument,
) -> Result<(), AllocError>
    ensures { OnOk result (source_tasks tasks.new ≡ argument_tasks (map function_node source.now.program.now) (scope_of scope.now.value) (argument_node arg.now) (source_tasks tasks.old)) }
{
    match arg {
        Argument::Value(expr) => push_value(tasks, source, scope, expr),
        Argument::Array(_) => Ok(()),
    }
}

/// A call: its arguments bound from left to right, and then the helper's body.
#[cycle(unfold)]
fn push_call<'a>(
    tasks: &mut SourceTasks<'a>,
    source: &Source<'a>,
    scope: &Rc<Scope<'a>>,
    call: u32,
    args: &'a [Argument],
) -> Result<(), AllocError>
    ensures { OnOk result (source_tasks tasks.new ≡ call_at (map function_node source.now.program.now) (scope_of scope.now.value) call (arg_nodes (map argument_node args.now)) (source_tasks tasks.old)) }
{
    match scope.callee(source.program, call) {
        Some(callee) => {
            tasks.push(Task::Invoke(place_body(source, scope, callee, args)?))?;
            push_args(tasks, source, scope, callee.site, callee.function, args)
        }
        None => tasks.push(Task::Number(0)),
    }
}

/// The body of a helper that is called.
fn place_body<'a>(
    source: &Source<'a>,
    scope: &Rc<Scope<'a>>,
    callee: Callee<'a>,
    args: &'a [Argument],
) -> Result<PlacedStmt<'a>, AllocError>
    ensures { IfOk result (λ body. stmt_of body ≡ placed_stmt (scope_at (scope_of scope.now.value) callee.entry.site (function_node callee.entry.function.now) (arg_nodes (map argument_node args.now))) (BlockNode (typed_stmts callee.entry.function.now.body.items))) }
{
    let inner = scope.inner(source.alloc, callee, args)?;
    match Rc::new(source.alloc, inner) {
        Ok(inner) => PlacedStmt::new(&inner, SourcePart::Block(callee.function.body.as_slice())),
        Err(_) => Err(AllocError),
    }
}

/// The arguments of a call, each bound to its parameter.
#[cycle(unfold)]
fn push_args<'a>(
    tasks: &mut SourceTasks<'a>,
    source: &Source<'a>,
    scope: &Rc<Scope<'a>>,
    site: CallSite,
    callee: &TypedFunction,
    args: &'a [Argument],
) -> Result<(), AllocError>
    ensures { OnOk result (source_tasks tasks.new ≡ args_tasks (map function_node source.now.program.now) (scope_of scope.now.value) (variable_in (scope_of scope.now.value) site.variables) callee.now.params 0 (arg_nodes (map argument_node args.now)) (source_tasks tasks.old)) }
{
    let first = scope.variable(site.variables);
    let params = callee.params.as_slice();
    for k in (0..args.len()).rev() {
        push_bound(tasks, source, scope, binding(first, params, k), &args[k])?;
    }
    Ok(())
}

/// The value of an argument, where it is one, and what is done with it.
#[cycle(unfold)]
fn push_bound<'a>(
    tasks: &mut SourceTasks<'a>,
    source: &Source<'a>,
    scope: &Rc<Scope<'a>>,
    bound: SourceTask<'a>,
    arg: &'a Argument,
) -> Result<(), AllocError>
    ensures { OnOk result (source_tasks tasks.new ≡ bound_tasks (map function_node source.now.program.now) (scope_of scope.now.value) (source_task bound.entry) (argument_node arg.now) (source_tasks tasks.old)) }
{
    match arg {
        Argument::Value(expr) => {
            tasks.push(bound)?;
            push_value(tasks, source, scope, expr)
        }
        Argument::Array(_) => Ok(()),
    }
}

/// What is done with the value of an argument, where the first scalar parameter is this variable.
fn binding<'a>(first: u32, params: &[Param], k: usize) -> SourceTask<'a>
    ensures { source_task result ≡ binding_of first params.now k }
{
    let variable = variable_at(first, params, k);
    match params.get(k) {
        Some(param) => bound_as(variable, param.kind),
        None => Task::Discard,
    }
}

/// What is done with a value that is bound to a parameter of this kind.
fn bound_as<'a>(variable: u32, kind: ParamKind) -> SourceTask<'a>
    ensures { source_task result ≡ bound_as_of variable kind }
{
    match kind {
        ParamKind::Scalar(elem) => Task::Assign { variable, elem },
        ParamKind::Pointer { .. } => Task::Discard,
    }
}

/// The variable of parameter k, where it is a scalar.
fn variable_at(first: u32, params: &[Param], k: usize) -> u32
    ensures { result ≡ cut (first + count_by is_scalar_of (take k params.now)) }
{
    first.saturating_add(cut_word(scalars_before(params, k)))
}

/// How many parameters before parameter k are scalars.
fn scalars_before(params: &[Param], k: usize) -> usize
    ensures { result ≡ count_by is_scalar_of (take k params.now) }
{
    params
        .iter()
        .take(k)
        .filter(|param| is_scalar(param))
        .count()
}

/// A number cut at 2^32 - 1.
pub fn cut_word(n: usize) -> u32
    ensures { result ≡ cut n }
{
    u32::try_from(n).unwrap_or(u32::MAX)
}

/// Whether a parameter takes a number.
fn is_scalar(param: &Param) -> bool
    ensures { result ≡ is_scalar_of param.now }
{
    match param.kind {
        ParamKind::Scalar(_) => true,
        ParamKind::Pointer { .. } => false,
    }
}
