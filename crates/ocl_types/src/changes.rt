//! What assignments change.
ghost use Rattle.std.specs.Prelude.{◌≡◌, ℕ, List, MatchResult, Ok, Err, option_map};
ghost use Rattle.ocl_ast.specs.Shapes.{target_tree};
ghost use Rattle.ocl_program.specs.Shapes.{stmt_node};
ghost use Rattle.ocl_types.specs.Answers.{TargetTo, changed_in, changed_part, maybe_part};
ghost use Rattle.ocl_types.specs.Stmts.{assigned_array as assigned_array_of, assigned_name as assigned_name_of, change_node, change_on_uint as change_on_uint_of, typed_target as typed_target_of};
ghost use Rattle.ocl_types.specs.Tables.{NumbersOf, trees_of};

use crate::exprs::{MaybePart, typed_expr};
use crate::faults::TypeFault;
use crate::functions::{Functions, meaning_of};
use crate::kinds::{is_uint, on_uint};
use crate::names::{Binding, Meaning};
use crate::scopes::Scopes;
use ocl_ast::{AssignOp, Target};
use ocl_program::{ArrayRef, TypedExpr, TypedStmt};
use std::alloc::Global;
use vx_base::{Elem, Pos};

/// What an assignment changes.
#[derive(Drop)]
pub enum Changed {
    /// The variable of this number.
    Variable(u32),
    /// An element of an array.
    Element {
        /// The array.
        array: ArrayRef,
        /// Which element, from 0.
        place: TypedExpr,
        /// The place of the `[`.
        pos: Pos,
    },
}

/// What an assignment changes, with its type.
#[derive(Drop)]
pub struct ChangedPart {
    /// What is changed.
    pub what: Changed,
    /// Its type.
    pub elem: Elem,
}

/// An array of which an element is assigned.
#[derive(Clone, Copy)]
pub struct WritableArray {
    /// Which one.
    pub array: ArrayRef,
    /// The type of its elements.
    pub elem: Elem,
}

/// A name that is assigned; a `const` variable is not.
fn assigned_name(pos: Pos, meaning: Meaning) -> Result<ChangedPart, TypeFault>
    ensures { (calls : List ℕ) → MatchResult result (λ part. assigned_name_of pos calls meaning ≡ Ok (changed_part part calls)) (λ fault. assigned_name_of pos calls meaning ≡ Err fault) }
{
    match meaning {
        Meaning::Bound(binding) => match binding {
            Binding::Scalar {
                variable,
                elem,
                constant,
            } => {
                if constant {
                    return Err(TypeFault::Mismatch(pos));
                }
                Ok(ChangedPart {
                    what: Changed::Variable(variable),
                    elem,
                })
            }
            Binding::Array { .. } => Err(TypeFault::Mismatch(pos)),
        },
        Meaning::Function(_) => Err(TypeFault::Mismatch(pos)),
        Meaning::Builtin(_) => Err(TypeFault::Unknown(pos)),
        Meaning::Unknown => Err(TypeFault::Unknown(pos)),
    }
}

/// An array of which an element is assigned; a readonly one is not.
fn assigned_array(pos: Pos, meaning: Meaning) -> Result<WritableArray, TypeFault>
    ensures { result ≡ assigned_array_of pos meaning }
{
    match meaning {
        Meaning::Bound(binding) => match binding {
            Binding::Scalar { .. } => Err(TypeFault::Mismatch(pos)),
            Binding::Array {
                array,
                elem,
                readonly,
                space: _,
            } => {
                if readonly {
                    return Err(TypeFault::Mismatch(pos));
                }
                Ok(WritableArray { array, elem })
            }
        },
        Meaning::Function(_) => Err(TypeFault::Mismatch(pos)),
        Meaning::Builtin(_) => Err(TypeFault::Unknown(pos)),
        Meaning::Unknown => Err(TypeFault::Unknown(pos)),
    }
}

/// Types what an assignment changes. `calls` are the callees of its function so far; after a fault they are not to be
/// used.
#[tactic(auto, using(crate::proofs::Steps::fault_onward, crate::proofs::Steps::fault_behind))]
pub fn typed_target(
    alloc: Global,
    functions: &Functions<'_>,
    scopes: &Scopes<'_>,
    calls: &mut Vec<u32>,
    target: &Target,
) -> Result<ChangedPart, TypeFault>
    requires { NumbersOf functions.now.numbers.entries (trees_of functions.now.functions.now) }
    ensures { TargetTo result calls.new.items (typed_target_of (trees_of functions.now.functions.now) scopes.now calls.old.items (target_tree target.now)) }
{
    match target {
        Target::Name(name) => assigned_name(
            name.pos,
            meaning_of(functions, scopes, name.text.as_slice()),
        ),
        Target::Index { array, place, pos } => {
            let found = assigned_array(
                array.pos,
                meaning_of(functions, scopes, array.text.as_slice()),
            )?;
            let place = typed_expr(alloc, functions, scopes, calls, place)?;
            Ok(ChangedPart {
                what: Changed::Element {
                    array: found.array,
                    place: place.expr,
                    pos: *pos,
                },
                elem: found.elem,
            })
        }
    }
}

/// Whether the operator before the `=` works on uint; of a shift and where there is none, whether the target is uint.
fn change_on_uint(op: AssignOp, target: Elem, value: Elem) -> bool
    ensures { result ≡ change_on_uint_of op target value }
{
    match op {
        AssignOp::With(op) => on_uint(op, target, value),
        AssignOp::Set | AssignOp::Up | AssignOp::Down => is_uint(target),
    }
}

/// An assignment whose parts are typed.
pub fn change(target: ChangedPart, op: AssignOp, value: MaybePart) -> TypedStmt
    ensures { (before : List ℕ) (after : List ℕ) → stmt_node result ≡ change_node (changed_part target before) op (maybe_part value after) (changed_in target.what) }
{
    let elem = target.elem;
    let unsigned = change_on_uint(op, elem, value.elem);
    match target.what {
        Changed::Variable(variable) => TypedStmt::SetVariable {
            variable,
            elem,
            op,
            unsigned,
            value: value.expr,
        },
        Changed::Element { array, place, pos } => TypedStmt::SetElement {
            array,
            elem,
            place,
            op,
            unsigned,
            value: value.expr,
            pos,
        },
    }
}
