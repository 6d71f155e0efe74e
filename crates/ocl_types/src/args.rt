//! The arguments of calls.
ghost use Rattle.std.specs.Prelude.{◌≡◌, ◌∷◌, ◌++◌, [], OnOk, IfErr, map};
ghost use Rattle.ocl_ast.specs.Shapes.{tree_of};
ghost use Rattle.ocl_program.specs.Nodes.{ArrayNode, ValueNode};
ghost use Rattle.ocl_program.specs.Shapes.{argument_node, node_of};
ghost use Rattle.ocl_types.specs.Answers.{callee_in};
ghost use Rattle.ocl_types.specs.Exprs.{bare_array as bare_array_of, first_pos as first_pos_of, pointer_at};
ghost use Rattle.ocl_types.specs.Tables.{NumbersOf, trees_of};
ghost use Rattle.ocl_types.specs.declared.faults.TypeFault.TheVariants as fault;
ghost use Rattle.ocl_types.specs.declared.names.Given.TheVariants as kinds;

use crate::faults::TypeFault;
use crate::functions::{Functions, meaning_of};
use crate::names::{Binding, FoundArray, Given, Meaning};
use crate::parts::TypedPart;
use crate::scopes::Scopes;
use crate::uses::Callee;
use ocl_ast::Expr;
use ocl_program::Argument;
use std::alloc::Global;
use vx_base::{ParamKind, Pos};

/// The arguments of a call so far.
#[derive(Drop)]
pub struct Args {
    /// What the parameters are bound to, in order.
    pub args: Vec<Argument>,
    /// Their kinds, in order.
    pub given: Vec<Given>,
}

impl Args {
    /// No arguments.
    pub fn new(alloc: Global) -> Args
        ensures args { result.args.items ≡ [] }
        ensures given { result.given.items ≡ [] }
    {
        Args {
            args: Vec::new(alloc),
            given: Vec::new(alloc),
        }
    }

    /// Puts an array behind the others.
    pub fn push_array(&mut self, found: FoundArray, pos: Pos) -> Result<(), TypeFault>
        ensures args { OnOk result (map argument_node self.new.args.items ≡ map argument_node self.old.args.items ++ ArrayNode found.array ∷ []) }
        ensures given { OnOk result (self.new.given.items ≡ self.old.given.items ++ kinds.Array found.space found.elem found.readonly pos ∷ []) }
        ensures memory { IfErr result (λ f. f ≡ fault.Memory) }
    {
        self.args.push(Argument::Array(found.array))?;
        self.given.push(Given::Array {
            space: found.space,
            elem: found.elem,
            readonly: found.readonly,
            pos,
        })?;
        Ok(())
    }

    /// Puts a number behind the others.
    pub fn push_value(&mut self, part: TypedPart, pos: Pos) -> Result<(), TypeFault>
        ensures args { OnOk result (map argument_node self.new.args.items ≡ map argument_node self.old.args.items ++ ValueNode (node_of part.expr) ∷ []) }
        ensures given { OnOk result (self.new.given.items ≡ self.old.given.items ++ kinds.Value part.elem pos ∷ []) }
        ensures memory { IfErr result (λ f. f ≡ fault.Memory) }
    {
        let elem = part.elem;
        self.args.push(Argument::Value(part.expr))?;
        self.given.push(Given::Value { elem, pos })?;
        Ok(())
    }
}

/// Whether the parameter at a place is a pointer.
pub fn pointer_wanted(callee: Callee<'_>, place: usize) -> bool
    ensures { result ≡ pointer_at (callee_in callee.entry) place }
{
    match callee {
        Callee::Helper { params, .. } => match params.get(place) {
            Some(param) => matches!(param.kind, ParamKind::Pointer { .. }),
            None => false,
        },
        Callee::Builtin(_) => false,
    }
}

/// Where a pointer is wanted, the array that a bare name finds.
pub fn bare_array(
    functions: &Functions<'_>,
    scopes: &Scopes<'_>,
    pointer: bool,
    arg: &Expr,
) -> Option<FoundArray>
    requires { NumbersOf functions.now.numbers.entries (trees_of functions.now.functions.now) }
    ensures { result ≡ bare_array_of (trees_of functions.now.functions.now) scopes.now pointer (tree_of arg.now) }
{
    if !pointer {
        return None;
    }
    match arg {
        Expr::Name(name) => match meaning_of(functions, scopes, name.text.as_slice()) {
            Meaning::Bound(binding) => match binding {
                Binding::Array {
                    array,
                    space,
                    elem,
                    readonly,
                } => Some(FoundArray {
                    array,
                    space,
                    elem,
                    readonly,
                }),
                Binding::Scalar { .. } => None,
            },
            Meaning::Function(_) | Meaning::Builtin(_) | Meaning::Unknown => None,
        },
        _ => None,
    }
}

/// The place of an expression's first token.
pub fn first_pos(expr: &Expr) -> Pos
    ensures { result ≡ first_pos_of (tree_of expr.now) }
{
    match expr {
        Expr::Number { pos, .. } => *pos,
        Expr::Name(name) => name.pos,
        Expr::Unary { pos, .. } => *pos,
        Expr::Binary { left, .. } => first_pos(left),
        Expr::Both { left, .. } => first_pos(left),
        Expr::Either { left, .. } => first_pos(left),
        Expr::Choose { test, .. } => first_pos(test),
        Expr::Cast { pos, .. } => *pos,
        Expr::Index { array, .. } => array.pos,
        Expr::Call { name, .. } => name.pos,
        Expr::Paren { pos, .. } => *pos,
    }
}
