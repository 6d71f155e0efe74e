//! Whole kernels.
ghost use Rattle.std.specs.Prelude.{◌≡◌, ◌<◌, ◌≤◌, ◌+◌, ◌^◌, ◌∷◌, [], IfOk, OnOk, length, max};
ghost use Rattle.kir.specs.Loops.{loop_nesting, loop_nesting_in};
ghost use Rattle.kir.specs.Shapes.{code_of, op_of, ops_of};
ghost use Rattle.kir.specs.Trees.{NumberOf};
ghost use Rattle.uniformity.specs.Marks.{marked};
ghost use Rattle.vcode.specs.Code.{Fresh, Tmc};
ghost use Rattle.vcode.specs.Shapes.{Puts, vcode_of, vops_of};
ghost use Rattle.vcode.specs.Words.{words};
ghost use Rattle.simt_lowering.specs.Bounds.{AreWithin, IsLimited, LeadWithin, most_words};
ghost use Rattle.simt_lowering.specs.InArrays.{AccessArrays};
ghost use Rattle.simt_lowering.specs.InBlock.{ReadBlock};
ghost use Rattle.simt_lowering.specs.Kept.{AreKept};
ghost use Rattle.simt_lowering.specs.Lowered.{body_start as body_start_of, global_id_code, ids_code, lowered, lowered_kernel, ops_end, scalars, scalars_end as scalars_end_of, zeroed};
ghost use Rattle.simt_lowering.specs.Partings.{PartsAt};
ghost use Rattle.simt_lowering.specs.WithoutItems.{EndWithout};
ghost use Rattle.simt_lowering.specs.WrittenFirst.{AreWrittenFirst};
ghost use Rattle.simt_lowering.specs.Views.{HasPlaces, HasRoom, known_in, opening};

use crate::known::Known;
use crate::operations::put_ops;
use crate::starting::{
    put_differences, put_global_id, put_item_lanes, put_local_ids, put_scalars, put_spawn,
    put_zeroed,
};
use item_settings::copied_params;
use kir::{Kir, Op, Operand};
use ocl_ast::Param;
use std::alloc::{AllocError, Global};
use uniformity::Marks;
use vcode::{VCode, VOp, put};
use vx_base::{Memory, ParamKind};

/// How many loops stand within one another at most.
#[cycle(loops)]
fn loops(ops: &[Op]) -> u32
    requires fits { loop_nesting (ops_of ops.now) < 2 ^ 32 }
    ensures { result ≡ loop_nesting (ops_of ops.now) }
{
    let mut most = 0_u32;
    for k in 0..ops.len() {
        most = most.max(op_loops(&ops[k]));
    }
    most
}

/// How many loops stand within one another in an operation.
#[cycle(loops)]
fn op_loops(op: &Op) -> u32
    requires fits { loop_nesting_in (op_of op.now) < 2 ^ 32 }
    ensures { result ≡ loop_nesting_in (op_of op.now) }
{
    match op {
        Op::If { yes, no, .. } => loops(yes.as_slice()).max(loops(no.as_slice())),
        Op::Loop {
            head,
            body,
            step,
            ..
        } => {
            let inside = loops(body.as_slice()).max(loops(step.as_slice()));
            loops(head.as_slice()).max(inside) + 1
        }
        Op::Call { body } => loops(body.as_slice()),
        Op::Set { .. } | Op::Calculate { .. } | Op::Fit { .. } | Op::Id { .. } => 0,
        Op::Load { .. } | Op::Store { .. } | Op::Check { .. } | Op::Barrier { .. } => 0,
        Op::Break | Op::Continue | Op::Return => 0,
    }
}

/// The place behind the scalar parameters.
fn scalars_end(params: &[Param], place: u32) -> u32
    requires fits { place + length params.now < 2 ^ 32 }
    ensures { result ≡ scalars_end_of params.now place }
{
    let mut end = place;
    for k in 0..params.len() {
        if matches!(params[k].kind, ParamKind::Scalar(_)) {
            end += 1;
        }
    }
    end
}

/// The place where the body of a kernel begins.
fn body_start(params: &[Param], registers: u32) -> u32
    requires fits { registers + length params.now + 44 < 2 ^ 32 }
    ensures { result ≡ body_start_of params.now registers }
{
    scalars_end(params, registers + 15) + 29
}

/// The ids.
fn put_ids(out: &mut Vec<VOp>, known: &Known<'_>) -> Result<(), AllocError>
    requires room { HasRoom (known_in known.now) }
    ensures { OnOk result (Puts out.old.items out.new.items (ids_code (known_in known.now))) }
{
    put_local_ids(out, known)?;
    put_global_ids(out, known)?;
    put_differences(out, known, 2)?;
    put_differences(out, known, 5)
}

/// The global ids, from the local ones.
fn put_global_ids(out: &mut Vec<VOp>, known: &Known<'_>) -> Result<(), AllocError>
    requires room { HasRoom (known_in known.now) }
    ensures { OnOk result (Puts out.old.items out.new.items
        (λ c. global_id_code (known_in known.now) 0
        (global_id_code (known_in known.now) 1 (global_id_code (known_in known.now) 2 c)))) }
{
    put_global_id(out, known, 0)?;
    put_global_id(out, known, 1)?;
    put_global_id(out, known, 2)
}

/// The registers become 0, and then the first variables the scalar parameters.
fn put_variables(out: &mut Vec<VOp>, params: &[Param], registers: u32) -> Result<(), AllocError>
    requires few { length params.now ≤ 16 }
    ensures { OnOk result (Puts out.old.items out.new.items
        (λ c. Fresh ∷ zeroed 0 registers (scalars 0 0 params.now c))) }
{
    put(out, VOp::Fresh)?;
    put_zeroed(out, registers)?;
    put_scalars(out, params)
}

/// The operations in front of the body.
fn put_opening(out: &mut Vec<VOp>, known: &Known<'_>, registers: u32) -> Result<(), AllocError>
    requires room { HasRoom (known_in known.now) }
    ensures { OnOk result (Puts out.old.items out.new.items
        (opening (known_in known.now) registers)) }
{
    put_spawn(out, known)?;
    put_item_lanes(out, known)?;
    put_variables(out, known.params, registers)?;
    put_ids(out, known)
}

/// The operations of a kernel.
fn kernel_ops(
    alloc: Global,
    known: &Known<'_>,
    registers: u32,
    ops: &[Op],
) -> Result<Vec<VOp>, AllocError>
    requires places { HasPlaces (known_in known.now) registers (ops_of ops.now) }
    ensures { IfOk result (λ list.
        vops_of list.items ≡ opening (known_in known.now) registers
        (lowered (known_in known.now) 0 (ops_of ops.now)
        (body_start_of (known_in known.now).params registers) (Tmc (NumberOf 0) ∷ []))) }
{
    let mut out = Vec::new(alloc);
    put_opening(&mut out, known, registers)?;
    let place = body_start(known.params, registers);
    put_ops(&mut out, known, 0, ops, place)?;
    put(
        &mut out,
        VOp::Tmc {
            mask: Operand::Number(0),
        },
    )?;
    Ok(out)
}

/// The kernel as code for lanes.
fn lowered_code(alloc: Global, code: &Kir, marks: &Marks) -> Result<VCode, Memory>
    requires limited { IsLimited (code_of code.now) }
    requires fits { most_words (code_of code.now) < 2 ^ 32 }
    ensures { IfOk result (λ made.
        vcode_of made ≡ lowered_kernel (marked marks.now) (code_of code.now)) }
{
    let registers = code.variables + (8 + loops(code.ops.as_slice()));
    let params = copied_params(alloc, code.params.as_slice())?;
    let arrays = code.arrays.as_slice().to_vec(alloc)?;
    let known = Known::of(code, marks);
    let ops = kernel_ops(alloc, &known, registers, code.ops.as_slice())?;
    Ok(VCode {
        params,
        arrays,
        registers,
        ops,
    })
}

/// A kernel as code for the lanes of warps, by which of its variables are uniform. A lane alone that is laid out for a work-item asks
/// for what the item asks for, and begins no more turns of loops until then: from the first place, from the place at which other warps
/// begin, and from the place behind the operation that leaves the lanes that have an item. A warp parts exactly at the tests that are not
/// uniform. Memory is the only reason to give up.
pub fn lower(alloc: Global, code: &Kir, marks: &Marks) -> Result<VCode, Memory>
    requires limited { IsLimited (code_of code.now) }
    requires fits { most_words (code_of code.now) < 2 ^ 32 }
    ensures lowered { IfOk result (λ made.
        vcode_of made ≡ lowered_kernel (marked marks.now) (code_of code.now)) }
    ensures kept { IfOk result (λ made.
        AreKept (code_of code.now) (marked marks.now) (vops_of made.ops.items)) }
    ensures parts { IfOk result (λ made.
        PartsAt (code_of code.now) (marked marks.now) (vops_of made.ops.items)) }
    ensures words { IfOk result (λ made.
        words (vops_of made.ops.items) ≤ most_words (code_of code.now)) }
    ensures registers { IfOk result (λ made. AreWithin made.registers (vops_of made.ops.items)) }
    ensures places { IfOk result (λ made.
        LeadWithin (length made.ops.items) (vops_of made.ops.items)) }
    ensures written { IfOk result (λ made. AreWrittenFirst (vops_of made.ops.items)) }
    ensures accesses { IfOk result (λ made. AccessArrays (code_of code.now) (vops_of made.ops.items)) }
    ensures block { IfOk result (λ made. ReadBlock (vops_of made.ops.items)) }
    ensures ends { IfOk result (λ made. EndWithout (vops_of made.ops.items)) }
{
    let made = lowered_code(alloc, code, marks)?;
    Ok(made)
}
