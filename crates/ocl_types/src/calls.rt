//! Calls whose arguments are typed.
ghost use Rattle.std.specs.Prelude.{◌≡◌, Ok};
ghost use Rattle.ocl_types.specs.Answers.{args_sofar, callee_in, CallsTo, TypesTo};
ghost use Rattle.ocl_types.specs.Exprs.{any_uint as any_uint_of, call_made, first_not_word as first_not_word_of, first_stranger as first_stranger_of, given_is_uint, stranger as stranger_of, value_call as value_call_of, wanted as wanted_of, whole_call as whole_call_of};

use crate::args::Args;
use crate::faults::TypeFault;
use crate::kinds::{arity, builtin_type, is_of_kind, is_uint, is_word, pos_of};
use crate::names::Given;
use crate::parts::TypedPart;
use crate::uses::Callee;
use ocl_ast::{Gives, Param};
use ocl_program::{Builtin, TypedExpr, nodes};
use vx_base::Pos;

/// A typed call and what it gives.
#[derive(Drop)]
pub struct CallPart {
    /// The call.
    pub expr: TypedExpr,
    /// What it gives.
    pub gives: Gives,
}

/// How many arguments a call takes.
fn wanted(callee: Callee<'_>) -> usize
    ensures { result ≡ wanted_of (callee_in callee.entry) }
{
    match callee {
        Callee::Helper { params, .. } => params.len(),
        Callee::Builtin(which) => arity(which),
    }
}

/// The first argument that is not of its parameter's kind.
#[tactic(auto, using(crate::proofs::Strangers::stranger_here, crate::proofs::Strangers::no_stranger_here, crate::proofs::Strangers::no_param, crate::proofs::Strangers::none_given))]
fn first_stranger(params: &[Param], given: &[Given]) -> Option<Pos>
    ensures { result ≡ first_stranger_of params.now given.now }
{
    for (place, one) in given.iter().enumerate() {
        match params.get(place) {
            Some(param) => {
                if !is_of_kind(param.kind, *one) {
                    return Some(pos_of(*one));
                }
            }
            None => return None,
        }
    }
    None
}

/// The first argument that is neither an int nor a uint.
#[tactic(auto, using(crate::proofs::Strangers::no_word_here, crate::proofs::Strangers::word_here, crate::proofs::Strangers::no_more_words))]
fn first_not_word(given: &[Given]) -> Option<Pos>
    ensures { result ≡ first_not_word_of given.now }
{
    for one in given {
        if !is_word(*one) {
            return Some(pos_of(*one));
        }
    }
    None
}

/// The first argument of a wrong kind.
fn stranger(callee: Callee<'_>, given: &[Given]) -> Option<Pos>
    ensures { result ≡ stranger_of (callee_in callee.entry) given.now }
{
    match callee {
        Callee::Helper { params, .. } => first_stranger(params, given),
        Callee::Builtin(which) => match which {
            Builtin::MulHi => first_not_word(given),
            Builtin::WorkDim
            | Builtin::GlobalId
            | Builtin::LocalId
            | Builtin::GroupId
            | Builtin::GlobalSize
            | Builtin::LocalSize
            | Builtin::NumGroups
            | Builtin::GlobalOffset
            | Builtin::Min
            | Builtin::Max
            | Builtin::Clamp
            | Builtin::Abs => None,
        },
    }
}

/// Whether an argument is a uint.
fn is_uint_given(given: Given) -> bool
    ensures { result ≡ given_is_uint given }
{
    match given {
        Given::Value { elem, .. } => is_uint(elem),
        Given::Array { .. } => false,
    }
}

/// Whether the common type of some arguments is uint.
fn any_uint(given: &[Given]) -> bool
    ensures { result ≡ any_uint_of given.now }
{
    given.iter().any(|given| is_uint_given(*given))
}

/// A call whose arguments are typed: their number, then their kinds.
pub fn whole_call(
    pos: Pos,
    callee: Callee<'_>,
    calls: &mut Vec<u32>,
    args: Args,
) -> Result<CallPart, TypeFault>
    ensures { CallsTo result calls.new.items (whole_call_of pos (callee_in callee.entry) (args_sofar args calls.old.items)) }
{
    if args.given.len() != wanted(callee) {
        return Err(TypeFault::Mismatch(pos));
    }
    if let Some(pos) = stranger(callee, args.given.as_slice()) {
        return Err(TypeFault::Mismatch(pos));
    }
    made_call(callee, calls, args)
}

/// A call of the right arguments.
fn made_call(callee: Callee<'_>, calls: &mut Vec<u32>, args: Args) -> Result<CallPart, TypeFault>
    ensures { CallsTo result calls.new.items (Ok (call_made (callee_in callee.entry) (args_sofar args calls.old.items))) }
{
    match callee {
        Callee::Helper { number, gives, .. } => {
            let call = u32::try_from(calls.len()).unwrap_or(u32::MAX);
            calls.push(number)?;
            Ok(CallPart {
                expr: nodes::call(call, args.args),
                gives,
            })
        }
        Callee::Builtin(which) => {
            let unsigned = any_uint(args.given.as_slice());
            Ok(CallPart {
                expr: nodes::builtin(which, unsigned, args.args),
                gives: Gives::Value(builtin_type(which, unsigned)),
            })
        }
    }
}

/// A call whose value is used.
pub fn value_call(
    pos: Pos,
    callee: Callee<'_>,
    calls: &mut Vec<u32>,
    args: Args,
) -> Result<TypedPart, TypeFault>
    ensures { TypesTo result calls.new.items (value_call_of pos (callee_in callee.entry) (args_sofar args calls.old.items)) }
{
    let call = whole_call(pos, callee, calls, args)?;
    match call.gives {
        Gives::Nothing => Err(TypeFault::Mismatch(pos)),
        Gives::Value(elem) => Ok(TypedPart {
            expr: call.expr,
            elem,
        }),
    }
}
