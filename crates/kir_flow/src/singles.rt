//! Single operations.
ghost use Rattle.std.specs.Prelude.{◌≡◌, IfOk, true};
ghost use Rattle.kir.specs.Measures.{is_single as is_single_of};
ghost use Rattle.kir.specs.Shapes.{op_of, ops_of};
ghost use Rattle.kir_flow.specs.Flagging.{singles};
ghost use Rattle.kir_flow.specs.Views.{is_access};

use kir::{Op, put};
use std::alloc::{AllocError, Global};

/// Whether an operation holds no others and is no jump.
pub fn is_single(op: &Op) -> bool
    ensures { result ≡ is_single_of (op_of op.now) }
{
    match op {
        Op::Set { .. } | Op::Calculate { .. } | Op::Fit { .. } | Op::Id { .. } => true,
        Op::Load { .. } | Op::Store { .. } | Op::Check { .. } | Op::Barrier { .. } => true,
        Op::If { .. } | Op::Loop { .. } | Op::Call { .. } => false,
        Op::Break | Op::Continue | Op::Return => false,
    }
}

/// A single operation once more.
pub fn copy_single(op: &Op) -> Op
    ensures { is_single_of (op_of op.now) ≡ true → op_of result ≡ op_of op.now }
{
    match op {
        Op::Set { variable, value } => Op::Set {
            variable: *variable,
            value: *value,
        },
        Op::Calculate {
            variable,
            op,
            left,
            right,
        } => Op::Calculate {
            variable: *variable,
            op: *op,
            left: *left,
            right: *right,
        },
        Op::Fit {
            variable,
            elem,
            value,
        } => Op::Fit {
            variable: *variable,
            elem: *elem,
            value: *value,
        },
        Op::Id {
            variable,
            which,
            dimension,
        } => Op::Id {
            variable: *variable,
            which: *which,
            dimension: *dimension,
        },
        Op::Load { .. } | Op::Store { .. } | Op::Check { .. } | Op::Barrier { .. } => {
            copy_access(op)
        }
        Op::If { .. } | Op::Loop { .. } | Op::Call { .. } => Op::Return,
        Op::Break | Op::Continue | Op::Return => Op::Return,
    }
}

/// An operation on an array, or a barrier, once more.
fn copy_access(op: &Op) -> Op
    ensures { is_access (op_of op.now) ≡ true → op_of result ≡ op_of op.now }
{
    match op {
        Op::Load {
            variable,
            array,
            elem,
            index,
        } => Op::Load {
            variable: *variable,
            array: *array,
            elem: *elem,
            index: *index,
        },
        Op::Store {
            array,
            elem,
            index,
            value,
        } => Op::Store {
            array: *array,
            elem: *elem,
            index: *index,
            value: *value,
        },
        Op::Check { array, index, pos } => Op::Check {
            array: *array,
            index: *index,
            pos: *pos,
        },
        Op::Barrier { site } => Op::Barrier { site: *site },
        Op::Set { .. } | Op::Calculate { .. } | Op::Fit { .. } | Op::Id { .. } => Op::Return,
        Op::If { .. } | Op::Loop { .. } | Op::Call { .. } => Op::Return,
        Op::Break | Op::Continue | Op::Return => Op::Return,
    }
}

/// The single operations that stand in front.
pub fn copy_singles(alloc: Global, ops: &[Op]) -> Result<Vec<Op>, AllocError>
    ensures { IfOk result (λ copy. ops_of copy.items ≡ singles (ops_of ops.now)) }
{
    let mut copy = Vec::new(alloc);
    for k in 0..ops.len() {
        let op = &ops[k];
        if !is_single(op) {
            return Ok(copy);
        }
        put(&mut copy, copy_single(op))?;
    }
    Ok(copy)
}
