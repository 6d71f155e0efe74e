//! How large expressions and statements are where the sizes of what they call are known.
ghost use Rattle.std.specs.Prelude.{◌≡◌, ◌+◌, max, map, option_map, slice_get};
ghost use Rattle.ocl_program.specs.Measures.{cut, nodes as nodes_of, args_nodes, depth as depth_of, args_depth, control as control_of, args_control, stmt_size as stmt_size_of, stmts_size as stmts_size_of, stmt_depth, stmts_depth, stmt_control, stmts_control, where_some};
ghost use Rattle.ocl_program.specs.Nodes.{ExprNode, arg_nodes};
ghost use Rattle.ocl_program.specs.Shapes.{argument_node, node_of, stmt_node, typed_stmts};
ghost use Rattle.ocl_measures.specs.Sizes.{control_at, depth_at, nodes_at, of_argument, total_of};

use ocl_program::{Argument, CallSite, TypedExpr, TypedStmt};

/// How large a part of a body is. Each number is cut at 2^32 - 1.
#[derive(Clone, Copy, Debug, PartialEq, Eq)]
pub struct Size {
    /// Statements and parts of expressions.
    pub nodes: u32,
    /// The greatest depth of an expression, 0 where there is none.
    pub depth: u32,
    /// The greatest number of branches and loops round a statement or an expression.
    pub control: u32,
}

/// How large a function is with its calls expanded. Each number is cut at 2^32 - 1.
#[derive(Clone, Copy, Debug, PartialEq, Eq)]
pub struct Totals {
    /// Scalar parameters and declared names.
    pub variables: u32,
    /// Barriers.
    pub sites: u32,
    /// The greatest number of calls inside one another.
    pub calls: u32,
    /// Its body.
    pub size: Size,
}

/// What the calls in a body call: the function's table of calls, and the totals of all functions.
#[derive(Clone, Copy)]
pub struct Inner<'a> {
    /// The calls of the function.
    pub calls: &'a [CallSite],
    /// The totals of the functions of the program.
    pub totals: &'a [Totals],
}

/// Nothing.
pub const NONE: Size = Size {
    nodes: 0,
    depth: 0,
    control: 0,
};

/// A number or a name.
const LEAF: Size = Size {
    nodes: 1,
    depth: 1,
    control: 0,
};

impl Size {
    /// With some more nodes.
    fn and_nodes(self, more: u32) -> Size
        ensures nodes { result.nodes ≡ cut (self.nodes + more) }
        ensures depth { result.depth ≡ self.depth }
        ensures control { result.control ≡ self.control }
    {
        Size {
            nodes: self.nodes.saturating_add(more),
            ..self
        }
    }

    /// One level deeper in an expression.
    fn deeper(self) -> Size
        ensures nodes { result.nodes ≡ self.nodes }
        ensures depth { result.depth ≡ cut (self.depth + 1) }
        ensures control { result.control ≡ self.control }
    {
        Size {
            depth: self.depth.saturating_add(1),
            ..self
        }
    }

    /// Inside a branch or a loop.
    fn guarded(self) -> Size
        ensures nodes { result.nodes ≡ self.nodes }
        ensures depth { result.depth ≡ self.depth }
        ensures control { result.control ≡ cut (self.control + 1) }
    {
        Size {
            control: self.control.saturating_add(1),
            ..self
        }
    }

    /// Two parts beside each other.
    fn beside(self, other: Size) -> Size
        ensures nodes { result.nodes ≡ cut (self.nodes + other.nodes) }
        ensures depth { result.depth ≡ max self.depth other.depth }
        ensures control { result.control ≡ max self.control other.control }
    {
        Size {
            nodes: self.nodes.saturating_add(other.nodes),
            depth: self.depth.max(other.depth),
            control: self.control.max(other.control),
        }
    }

    /// A unary operator, a cast or an index over its part, or a call over its arguments.
    fn over(self) -> Size
        ensures nodes { result.nodes ≡ cut (self.nodes + 1) }
        ensures depth { result.depth ≡ cut (self.depth + 1) }
        ensures control { result.control ≡ self.control }
    {
        self.and_nodes(1).deeper()
    }
}

/// The callee of a call.
#[tactic(auto, using(crate::proofs::Lookups::callee_found, crate::proofs::Lookups::callee_missing))]
fn callee_at(calls: &[CallSite], call: u32) -> Option<u32>
    ensures { result ≡ slice_get (map (λ (c : CallSite). c.callee) calls.now) call }
{
    match calls.get(call as usize) {
        Some(site) => Some(site.callee),
        None => None,
    }
}

/// The size of a function.
fn function_size(totals: &[Totals], function: u32) -> Size
    ensures nodes { result.nodes ≡ total_of (λ (t : Totals). t.size.nodes) totals.now function }
    ensures depth { result.depth ≡ total_of (λ (t : Totals). t.size.depth) totals.now function }
    ensures control { result.control ≡ total_of (λ (t : Totals). t.size.control) totals.now function }
{
    match totals.get(function as usize) {
        Some(totals) => totals.size,
        None => NONE,
    }
}

/// The size of what a call calls.
fn size_at(inner: Inner<'_>, call: u32) -> Size
    ensures nodes { result.nodes ≡ cut (nodes_at inner.entry call) }
    ensures depth { result.depth ≡ cut (depth_at inner.entry call) }
    ensures control { result.control ≡ cut (control_at inner.entry call) }
{
    match callee_at(inner.calls, call) {
        Some(callee) => function_size(inner.totals, callee),
        None => NONE,
    }
}

/// The size of an expression.
#[cycle(expr_sizes)]
pub fn expr_size(inner: Inner<'_>, expr: &TypedExpr) -> Size
    ensures nodes { result.nodes ≡ cut (nodes_of (nodes_at inner.entry) (node_of expr.now)) }
    ensures depth { result.depth ≡ cut (depth_of (depth_at inner.entry) (node_of expr.now)) }
    ensures control { result.control ≡ cut (control_of (control_at inner.entry) (node_of expr.now)) }
{
    match expr {
        TypedExpr::Number { .. } => LEAF,
        TypedExpr::Variable { .. } => LEAF,
        TypedExpr::Unary { part, .. } => expr_size(inner, part).over(),
        TypedExpr::Cast { part, .. } => expr_size(inner, part).over(),
        TypedExpr::Load { place, .. } => expr_size(inner, place).over(),
        TypedExpr::Paren(part) => expr_size(inner, part).deeper(),
        TypedExpr::Binary { left, right, .. } => {
            binary(expr_size(inner, left), expr_size(inner, right))
        }
        TypedExpr::Both { left, right } => {
            binary(expr_size(inner, left), expr_size(inner, right).guarded())
        }
        TypedExpr::Either { left, right } => {
            binary(expr_size(inner, left), expr_size(inner, right).guarded())
        }
        TypedExpr::Choose { test, yes, no, .. } => choose(
            expr_size(inner, test),
            expr_size(inner, yes),
            expr_size(inner, no),
        ),
        TypedExpr::Call { call, args } => args_size(inner, args)
            .beside(size_at(inner, *call))
            .over(),
        TypedExpr::Builtin { args, .. } => args_size(inner, args).over(),
    }
}

/// The size of some arguments.
#[cycle(expr_sizes)]
#[tactic(auto, using(crate::proofs::Steps::args_nodes_step, crate::proofs::Steps::args_depth_step, crate::proofs::Steps::args_control_step, crate::proofs::Steps::all_left))]
fn args_size(inner: Inner<'_>, args: &[Argument]) -> Size
    ensures nodes { result.nodes ≡ cut (args_nodes (nodes_at inner.entry) (arg_nodes (map argument_node args.now))) }
    ensures depth { result.depth ≡ cut (args_depth (depth_at inner.entry) (arg_nodes (map argument_node args.now))) }
    ensures control { result.control ≡ cut (args_control (control_at inner.entry) (arg_nodes (map argument_node args.now))) }
{
    let mut total = NONE;
    for arg in args {
        total = total.beside(argument_size(inner, arg));
    }
    total
}

/// The size of an argument: an array is a name.
#[cycle(expr_sizes)]
fn argument_size(inner: Inner<'_>, arg: &Argument) -> Size
    ensures nodes { result.nodes ≡ cut (of_argument (nodes_of (nodes_at inner.entry)) 1 (argument_node arg.now)) }
    ensures depth { result.depth ≡ cut (of_argument (depth_of (depth_at inner.entry)) 1 (argument_node arg.now)) }
    ensures control { result.control ≡ cut (of_argument (control_of (control_at inner.entry)) 0 (argument_node arg.now)) }
{
    match arg {
        Argument::Value(expr) => expr_size(inner, expr),
        Argument::Array(_) => LEAF,
    }
}

/// An operator between its operands.
fn binary(left: Size, right: Size) -> Size
    ensures nodes { result.nodes ≡ cut (left.nodes + right.nodes + 1) }
    ensures depth { result.depth ≡ cut (max left.depth (right.depth + 1)) }
    ensures control { result.control ≡ max left.control right.control }
{
    left.beside(right.deeper()).and_nodes(1)
}

/// `test ? one : other`.
fn choose(test: Size, one: Size, other: Size) -> Size
    ensures nodes { result.nodes ≡ cut (test.nodes + one.nodes + other.nodes + 1) }
    ensures depth { result.depth ≡ cut (max test.depth (max one.depth other.depth) + 1) }
    ensures control { result.control ≡ cut (max test.control (max one.control other.control + 1)) }
{
    test.beside(one.beside(other).guarded()).over()
}

/// The size of an expression that may be left out.
fn option_size(inner: Inner<'_>, expr: &Option<TypedExpr>) -> Size
    ensures nodes { result.nodes ≡ cut (where_some (λ (e : ExprNode). nodes_of (nodes_at inner.entry) e) (option_map node_of expr.now)) }
    ensures depth { result.depth ≡ cut (where_some (λ (e : ExprNode). depth_of (depth_at inner.entry) e) (option_map node_of expr.now)) }
    ensures control { result.control ≡ cut (where_some (λ (e : ExprNode). control_of (control_at inner.entry) e) (option_map node_of expr.now)) }
{
    match expr {
        Some(expr) => expr_size(inner, expr),
        None => NONE,
    }
}

/// An assignment to an element.
fn set_element(place: Size, value: Size) -> Size
    ensures nodes { result.nodes ≡ cut (place.nodes + value.nodes + 2) }
    ensures depth { result.depth ≡ cut (max (place.depth + 1) value.depth) }
    ensures control { result.control ≡ max place.control value.control }
{
    place.over().beside(value).and_nodes(1)
}

/// A test over what it guards.
fn tested(test: Size, guarded: Size) -> Size
    ensures nodes { result.nodes ≡ cut (test.nodes + guarded.nodes + 1) }
    ensures depth { result.depth ≡ max test.depth guarded.depth }
    ensures control { result.control ≡ cut (max test.control (guarded.control + 1)) }
{
    test.beside(guarded.guarded()).and_nodes(1)
}

/// A loop over its test and its body.
fn repeated(test: Size, body: Size) -> Size
    ensures nodes { result.nodes ≡ cut (test.nodes + body.nodes + 1) }
    ensures depth { result.depth ≡ max test.depth body.depth }
    ensures control { result.control ≡ cut (max test.control body.control + 1) }
{
    test.beside(body).guarded().and_nodes(1)
}

/// The size of a statement.
#[cycle(stmt_sizes)]
pub fn stmt_size(inner: Inner<'_>, stmt: &TypedStmt) -> Size
    ensures nodes { result.nodes ≡ cut (stmt_size_of (nodes_at inner.entry) (stmt_node stmt.now)) }
    ensures depth { result.depth ≡ cut (stmt_depth (depth_at inner.entry) (stmt_node stmt.now)) }
    ensures control { result.control ≡ cut (stmt_control (control_at inner.entry) (stmt_node stmt.now)) }
{
    match stmt {
        TypedStmt::Declare { value, .. } => option_size(inner, value).and_nodes(1),
        TypedStmt::LocalArray { count, .. } => expr_size(inner, count).and_nodes(1),
        TypedStmt::SetVariable { value, .. } => option_size(inner, value).and_nodes(2),
        TypedStmt::SetElement { place, value, .. } => {
            set_element(expr_size(inner, place), option_size(inner, value))
        }
        TypedStmt::Call(call) => expr_size(inner, call),
        TypedStmt::Barrier { .. } => NONE.and_nodes(1),
        TypedStmt::If { test, yes, no } => {
            let guarded = match no {
                Some(other) => stmt_size(inner, yes).beside(stmt_size(inner, other)),
                None => stmt_size(inner, yes),
            };
            tested(expr_size(inner, test), guarded)
        }
        TypedStmt::While { test, body } => {
            repeated(expr_size(inner, test), stmt_size(inner, body))
        }
        TypedStmt::Do { body, test } => repeated(expr_size(inner, test), stmt_size(inner, body)),
        TypedStmt::For {
            first,
            test,
            step,
            body,
        } => {
            let turn = stmts_size(inner, step).beside(stmt_size(inner, body));
            stmts_size(inner, first).beside(repeated(option_size(inner, test), turn))
        }
        TypedStmt::Break => NONE.and_nodes(1),
        TypedStmt::Continue => NONE.and_nodes(1),
        TypedStmt::Return(value) => option_size(inner, value).and_nodes(1),
        TypedStmt::Block(items) => stmts_size(inner, items),
        TypedStmt::Empty => NONE,
    }
}

/// The size of some statements.
#[cycle(stmt_sizes)]
#[tactic(auto, using(crate::proofs::Steps::stmts_nodes_step, crate::proofs::Steps::stmts_depth_step, crate::proofs::Steps::stmts_control_step, crate::proofs::Steps::all_left))]
pub fn stmts_size(inner: Inner<'_>, stmts: &[TypedStmt]) -> Size
    ensures nodes { result.nodes ≡ cut (stmts_size_of (nodes_at inner.entry) (typed_stmts stmts.now)) }
    ensures depth { result.depth ≡ cut (stmts_depth (depth_at inner.entry) (typed_stmts stmts.now)) }
    ensures control { result.control ≡ cut (stmts_control (control_at inner.entry) (typed_stmts stmts.now)) }
{
    let mut total = NONE;
    for stmt in stmts {
        total = total.beside(stmt_size(inner, stmt));
    }
    total
}
