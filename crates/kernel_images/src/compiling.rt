//! A kernel, by its name, as an image.
ghost use Rattle.std.specs.Prelude.{◌≡◌, ◌≤◌, ◌<◌, ◌+◌, ◌*◌, ◌-◌, ◌^◌, min, IfOk, IfErr, OnOk, Some, length, map, option_map, slice_get};
ghost use Rattle.ocl_program.specs.Measures.{measured, own_depth};
ghost use Rattle.ocl_program.specs.Shapes.{function_node};
ghost use Rattle.ocl_program.specs.Nodes.{FunctionNode};
ghost use Rattle.structured.specs.Ready.{IsKernel};
ghost use Rattle.vcode.specs.Shapes.{vops_of};
ghost use Rattle.vcode.specs.Words.{words as count_of};
ghost use Rattle.vx_isa.specs.Rows.{row_of};
ghost use Rattle.simt_lowering.specs.Bounds.{AreWithin};
ghost use Rattle.reg_alloc.specs.Layout.{instrs_of, sites_of, words_of};
ghost use Rattle.kernel_images.specs.Images.{IsImageNamed, IsImageOf};
ghost use Rattle.kernel_images.specs.Refusals.{IsRefused, IsSmall, IsSmallNamed, IsTooLarge, kept as kept_of};

use crate::parts::{kinds_of, sizes_of};
use lane_kernels::lane_kernel;
use ocl_program::Measures;
use ocl_types::Program;
use reg_alloc::{AllocateFault, Allocated, allocate};
use std::alloc::Global;
use thiserror::Error;
use vcode::VCode;
use vx_base::{Memory, Pos};
use vx_isa::Image;

/// Why a kernel has no image.
#[derive(Clone, Copy, Debug, PartialEq, Eq, Error)]
pub enum CompileFault {
    /// No kernel has the name.
    #[error("no kernel has this name")]
    NoEntry,
    /// A lane's frame may take more than 256 words.
    #[error("a lane's frame may take {slots} words, more than 256")]
    Slots {
        /// Where the kernel's name stands.
        pos: Pos,
        /// How many it may take; at most 2^32 - 1 is kept.
        slots: u32,
    },
    /// The code may take more than 65,536 words.
    #[error("the code may take {words} words, more than 65,536")]
    Words {
        /// Where the kernel's name stands.
        pos: Pos,
        /// How many it may take; at most 2^32 - 1 is kept.
        words: u32,
    },
    /// Memory ran out.
    #[error("memory ran out")]
    Memory,
}

/// The most words that a lane's frame takes, by a kernel's measures.
fn most_slots(m: Measures) -> u64
    ensures { result ≡ m.variables + 2 * m.depth + 4 * m.control + 2 * m.calls + 16 }
{
    u64::from(m.variables)
        + 2 * u64::from(m.depth)
        + 4 * u64::from(m.control)
        + 2 * u64::from(m.calls)
        + 16
}

/// A number as a refusal keeps it.
fn kept(number: u64) -> u32
    ensures { result ≡ min number (2 ^ 32 - 1) }
{
    if number > 4_294_967_295 {
        return 4_294_967_295;
    }
    number as u32
}

/// Whether a kernel's measures are small enough for an image; its name stands here.
fn check_size(program: &Program, kernel: u32, pos: Pos) -> Result<(), CompileFault>
    requires { kernel < length program.now.functions.items }
    ensures small { OnOk result (IsSmall (map function_node program.now.functions.items) kernel) }
    ensures large { IfErr result (IsTooLarge (map function_node program.now.functions.items) kernel pos) }
{
    let m = program.measures(kernel);
    let slots = most_slots(m);
    if slots > 256 {
        return Err(CompileFault::Slots {
            pos,
            slots: kept(slots),
        });
    }
    let words = 40 * u64::from(m.nodes) + 256;
    if words > 65_536 {
        return Err(CompileFault::Words {
            pos,
            words: kept(words),
        });
    }
    Ok(())
}

/// The words of a kernel's code for lanes, which are few.
fn allocated(alloc: Global, code: &VCode) -> Result<Allocated, Memory>
    requires within { AreWithin code.now.registers (vops_of code.now.ops.items) }
    requires registers { code.now.registers ≤ 256 }
    requires words { count_of (vops_of code.now.ops.items) ≤ 65536 }
    ensures words { IfOk result (λ made. made.words ≡ words_of made.slots (vops_of code.now.ops.items)) }
    ensures sites { IfOk result (λ made. made.sites ≡ sites_of (vops_of code.now.ops.items)) }
    ensures slots { IfOk result (λ made. made.slots ≡ code.now.registers) }
    ensures small { IfOk result (λ made. made.slots ≤ 256) }
    ensures counted { IfOk result (λ made. length made.words ≡ count_of (vops_of code.now.ops.items)) }
    ensures decoded { IfOk result (λ made.
        map row_of made.words ≡ map Some (instrs_of made.slots (vops_of code.now.ops.items))) }
{
    match allocate(alloc, code) {
        Ok(made) => Ok(made),
        Err(AllocateFault::Memory) => Err(Memory),
        Err(AllocateFault::TooLarge { .. }) => unreachable!(),
    }
}

/// The image of a kernel whose measures are small enough.
fn image_of(alloc: Global, program: &Program, kernel: u32) -> Result<Image, Memory>
    requires exists { kernel < length program.now.functions.items }
    requires kernel { IsKernel (map function_node program.now.functions.items) kernel }
    requires small { IsSmall (map function_node program.now.functions.items) kernel }
    ensures image { IfOk result (IsImageOf (map function_node program.now.functions.items) kernel) }
{
    let function = &program.functions[kernel as usize];
    let code = lane_kernel(alloc, program, kernel)?;
    let made = allocated(alloc, &code)?;
    let params = kinds_of(alloc, function.params.as_slice())?;
    let locals = sizes_of(alloc, function.arrays.as_slice())?;
    Ok(Image {
        words: made.words,
        slots: made.slots,
        sites: made.sites,
        params,
        locals,
    })
}

/// The image of a kernel, by its name. In every accepted launch of the kernel, each lane of the code that the image has the words of does as
/// its item in the source. It is refused exactly if no kernel has the name or its measures are too large; memory is the only other
/// reason to give up.
pub fn compile(alloc: Global, program: &Program, entry: &[u8]) -> Result<Image, CompileFault>
    ensures image { IfOk result (IsImageNamed (map function_node program.now.functions.items) entry.now) }
    ensures small { IfOk result (λ image. IsSmallNamed (map function_node program.now.functions.items) entry.now) }
    ensures refused { IfErr result (IsRefused (map function_node program.now.functions.items) entry.now) }
{
    let Some(kernel) = program.find(entry) else {
        return Err(CompileFault::NoEntry);
    };
    let pos = program.functions[kernel as usize].name.pos;
    if let Err(fault) = check_size(program, kernel, pos) {
        return Err(fault);
    }
    match image_of(alloc, program, kernel) {
        Ok(image) => Ok(image),
        Err(_memory) => Err(CompileFault::Memory),
    }
}
