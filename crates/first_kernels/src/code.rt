ghost use Rattle.std.specs.Prelude.{◌≡◌, ◌+◌, ◌*◌, ◌<◌, ◌≤◌, ◌^◌, [], ◌∷◌, ◌++◌, ◌%◌, IfOk, OnOk, length, map};
ghost use Rattle.std.specs.List.{AllByRecursion};
ghost use Rattle.first_kernels.specs.FirstCode.{AreLow, IsCodeOf, assignment_code, body_code, high_part, kernel_code, low_part, opening_code, operator_code, places_of, sum_code};
ghost use Rattle.first_kernels.specs.FirstMemory.{stride};
ghost use Rattle.first_kernels.specs.FirstTree.{assigns_of, form_of, height, tree_of};
ghost use Rattle.first_kernels.specs.FirstValues.{IsAssignmentOf, IsLaunchable, IsSumOf};

use crate::tree::{Assignment, Kernel, Operator, Sum};
use crate::warp::{LANE_NUMBER, MEMORY_START};
use std::alloc::{AllocError, Global};
use vx_base::Memory;
use vx_isa::Instr;

/// The register of the item's number.
const NUMBER: u32 = 5;

/// The register of the address of the item's own element of the first buffer.
const ADDRESS: u32 = 6;

/// The register of the distance of the item's own element from the beginning of a buffer.
const DISTANCE: u32 = 7;

/// The register of the value of a whole sum. The values of its parts lie in the registers from there on.
const VALUE: u32 = 8;

/// Compiles a kernel, for so many work-items, where `arguments` has the buffer of each parameter. The element of each item
/// lies in memory as `specs/FirstMemory.antt` says. The code is straight, and ends with `tmc x0`.
pub fn compile(
    alloc: Global,
    kernel: &Kernel,
    arguments: &[u32],
    items: u32,
) -> Result<Vec<Instr>, Memory>
    requires launchable { IsLaunchable (form_of kernel.now) arguments.now items 16 }
    requires low { AreLow (form_of kernel.now) }
    ensures { IfOk result (λ code. IsCodeOf (form_of kernel.now) arguments.now items code.items) }
{
    match kernel_instrs(alloc, kernel, arguments, items) {
        Ok(code) => Ok(code),
        Err(_) => Err(Memory),
    }
}

/// The code of a kernel.
fn kernel_instrs(
    alloc: Global,
    kernel: &Kernel,
    arguments: &[u32],
    items: u32,
) -> Result<Vec<Instr>, AllocError>
    requires launchable { IsLaunchable (form_of kernel.now) arguments.now items 16 }
    requires low { AreLow (form_of kernel.now) }
    ensures { IfOk result (λ code. code.items ≡ kernel_code (places_of arguments.now items) (form_of kernel.now)) }
{
    let places = places(alloc, arguments, stride(items))?;
    let mut code = Vec::new(alloc);
    emit_opening(&mut code)?;
    emit_body(&mut code, &kernel.assignments.items, places.as_slice())?;
    emit(&mut code, Instr::Tmc { rs1: 0 })?;
    Ok(code)
}

/// How many bytes lie between the beginnings of two buffers.
pub fn stride(items: u32) -> u32
    requires { items ≤ 32 }
    ensures { result ≡ stride items }
{
    (4 * items).next_multiple_of(64)
}

/// Where the buffer of each parameter begins.
fn places(alloc: Global, arguments: &[u32], stride: u32) -> Result<Vec<u32>, AllocError>
    ensures { IfOk result (λ places. places.items ≡ map (λ buffer. buffer * stride % 2 ^ 32) arguments.now) }
{
    arguments
        .iter()
        .map(|buffer| buffer.wrapping_mul(stride))
        .collect(alloc)
}

/// One more instruction.
fn emit(code: &mut Vec<Instr>, i: Instr) -> Result<(), AllocError>
    ensures { OnOk result (code.new.items ≡ code.old.items ++ i ∷ []) }
{
    code.push(i)?;
    Ok(())
}

/// The item's number, and the address of its own element of the first buffer.
fn emit_opening(code: &mut Vec<Instr>) -> Result<(), AllocError>
    requires { code.old.items ≡ [] }
    ensures { OnOk result (code.new.items ≡ opening_code) }
{
    emit(
        code,
        Instr::Csrr {
            rd: NUMBER,
            csr: LANE_NUMBER,
        },
    )?;
    emit(
        code,
        Instr::Slli {
            rd: DISTANCE,
            rs1: NUMBER,
            amount: 2,
        },
    )?;
    emit(
        code,
        Instr::Lui {
            rd: ADDRESS,
            imm: MEMORY_START >> 12,
        },
    )?;
    emit(
        code,
        Instr::Add {
            rd: ADDRESS,
            rs1: ADDRESS,
            rs2: DISTANCE,
        },
    )
}

/// The assignments in turn.
fn emit_body(
    code: &mut Vec<Instr>,
    assignments: &[Assignment],
    places: &[u32],
) -> Result<(), AllocError>
    requires of_parameters { AllByRecursion (IsAssignmentOf (length places.now)) (map assigns_of assignments.now) }
    requires low { AllByRecursion (λ a. height a.value ≤ 16) (map assigns_of assignments.now) }
    ensures { OnOk result (code.new.items ≡ code.old.items ++ body_code places.now (map assigns_of assignments.now)) }
{
    for assignment in assignments {
        emit_assignment(code, assignment, places)?;
    }
    Ok(())
}

/// The sum, and then the store of its value.
fn emit_assignment(
    code: &mut Vec<Instr>,
    assignment: &Assignment,
    places: &[u32],
) -> Result<(), AllocError>
    requires of_parameters { IsAssignmentOf (length places.now) (assigns_of assignment.now) }
    requires low { height (assigns_of assignment.now).value ≤ 16 }
    ensures { OnOk result (code.new.items ≡ code.old.items ++ assignment_code places.now (assigns_of assignment.now)) }
{
    emit_sum(code, &assignment.value, 0, places)?;
    let imm = places[assignment.parameter as usize];
    emit(
        code,
        Instr::Sw {
            rs2: VALUE,
            imm,
            rs1: ADDRESS,
        },
    )
}

/// A sum, with its value in the register of this depth. The values of its parts lie in that register and those above it.
fn emit_sum(code: &mut Vec<Instr>, sum: &Sum, depth: u32, places: &[u32]) -> Result<(), AllocError>
    requires of_parameters { IsSumOf (length places.now) (tree_of sum.now) }
    requires low { depth + height (tree_of sum.now) ≤ 16 }
    ensures { OnOk result (code.new.items ≡ code.old.items ++ sum_code places.now depth (tree_of sum.now)) }
{
    let rd = VALUE + depth;
    match sum {
        Sum::Number(n) => emit_number(code, *n, rd),
        Sum::GlobalId => emit(
            code,
            Instr::Addi {
                rd,
                rs1: NUMBER,
                imm: 0,
            },
        ),
        Sum::Element(parameter) => {
            let imm = places[*parameter as usize];
            emit(
                code,
                Instr::Lw {
                    rd,
                    imm,
                    rs1: ADDRESS,
                },
            )
        }
        Sum::Group(inner) => emit_sum(code, inner, depth, places),
        Sum::Operation {
            operator,
            left,
            right,
        } => {
            emit_sum(code, left, depth, places)?;
            emit_sum(code, right, depth + 1, places)?;
            emit(code, operation(*operator, depth))
        }
    }
}

/// A number: the multiple of 2^12 nearest to it, and then what is missing.
fn emit_number(code: &mut Vec<Instr>, n: u32, rd: u32) -> Result<(), AllocError>
    requires { n < 2 ^ 31 }
    ensures { OnOk result (code.new.items ≡ code.old.items ++ Instr.Lui rd (high_part n) ∷ Instr.Addi rd rd (low_part n) ∷ []) }
{
    let high = (n + 0x800) >> 12;
    let low = n.wrapping_sub(high << 12);
    emit(code, Instr::Lui { rd, imm: high })?;
    emit(
        code,
        Instr::Addi {
            rd,
            rs1: rd,
            imm: low,
        },
    )
}

/// The operator on the values at a depth and at the next.
fn operation(operator: Operator, depth: u32) -> Instr
    requires { depth < 16 }
    ensures { result ≡ operator_code operator depth }
{
    let rd = VALUE + depth;
    let (rs1, rs2) = (rd, rd + 1);
    match operator {
        Operator::Add => Instr::Add { rd, rs1, rs2 },
        Operator::Subtract => Instr::Sub { rd, rs1, rs2 },
        Operator::Multiply => Instr::Mul { rd, rs1, rs2 },
    }
}
