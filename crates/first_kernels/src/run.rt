ghost use Rattle.std.specs.Prelude.{◌≡◌, ◌*◌, ◌≤◌, IfOk, OnErr, OnOk, length, replicate};
ghost use Rattle.first_kernels.specs.FirstCode.{AreLow};
ghost use Rattle.first_kernels.specs.FirstMemory.{HasRun, stride};
ghost use Rattle.first_kernels.specs.FirstTree.{form_of};
ghost use Rattle.first_kernels.specs.FirstValues.{IsLaunchable};
ghost use Rattle.first_kernels.specs.FirstWarp.{idle};

use crate::code::compile;
use crate::tree::Kernel;
use crate::warp::{Lane, run_code};
use std::alloc::{AllocError, Global};
use vx_base::Memory;

/// Runs a kernel over so many work-items, one in each lane of a warp.
///
/// `arguments` has the number of the buffer of each parameter, and `memory` the elements of the buffers, each buffer at a
/// multiple of 64 bytes. Where memory runs out, nothing has run.
pub fn run_kernel(
    alloc: Global,
    kernel: &Kernel,
    arguments: &[u32],
    items: u32,
    buffers: u32,
    memory: &mut [u8],
) -> Result<(), Memory>
    requires launchable { IsLaunchable (form_of kernel.now) arguments.now items buffers }
    requires low { AreLow (form_of kernel.now) }
    requires room { length memory.old ≡ buffers * stride items }
    requires few { buffers ≤ 16 }
    ensures run { OnOk result (HasRun (form_of kernel.now) arguments.now items buffers memory.old memory.new) }
    ensures err { OnErr result (memory.new ≡ memory.old) }
{
    let code = compile(alloc, kernel, arguments, items)?;
    let Ok(mut lanes) = idle_lanes(alloc, items) else {
        return Err(Memory);
    };
    match run_code(code.as_slice(), lanes.as_mut_slice(), memory) {
        Ok(()) => Ok(()),
        Err(_) => unreachable!(),
    }
}

/// Lanes that have done nothing yet.
fn idle_lanes(alloc: Global, count: u32) -> Result<Vec<Lane>, AllocError>
    ensures { IfOk result (λ lanes. lanes.items ≡ replicate count idle) }
{
    let mut lanes = Vec::new(alloc);
    for _ in 0..count {
        lanes.push(Lane::new())?;
    }
    Ok(lanes)
}
