//! The launch of a kernel over its buffers.

ghost use Rattle.std.specs.Prelude.{◌≡◌, ℕ, ◌*◌, ◌≤◌, ◌<◌, All, length, slice_index, IfOk, OnOk};
ghost use Rattle.item_acts.specs.Tame.{LaunchLeaves};
ghost use Rattle.vx_run.specs.Answers.{bytes_in};
ghost use Rattle.first_kernels.specs.First.{launch_of};
ghost use Rattle.first_kernels.specs.FirstCode.{AreLow};
ghost use Rattle.first_kernels.specs.FirstMemory.{HasRun, stride};
ghost use Rattle.first_kernels.specs.FirstTree.{form_of};
ghost use Rattle.vx_run.specs.Layout.{shown_text};
ghost use Rattle.std.specs.List.{flat_map};
ghost use Rattle.first_kernels.specs.FirstValues.{IsLaunchable};
ghost use Rattle.vx_run.specs.Output.{output_text};

use crate::layout::{lay_out, print_buffers};
use first_kernels::run::run_kernel;
use first_kernels::tree::Kernel;
use std::alloc::Global;
use vx_base::{Memory, Text};
use vx_words::RunWords;

// Runs a kernel over the memory, and gives the text of the buffers that are to be printed.
fn run_and_print(
    alloc: Global,
    run: &RunWords,
    kernel: &Kernel,
    memory: &mut [u8],
) -> Result<Text, Memory>
    requires launchable { IsLaunchable (form_of kernel.now) run.now.arguments run.now.items (length run.now.buffers) }
    requires low { AreLow (form_of kernel.now) }
    requires few_buffers { length run.now.buffers ≤ 16 }
    requires shows { All (λ b. b < length run.now.buffers) run.now.shows }
    requires room { length memory.old ≡ length run.now.buffers * stride run.now.items }
    ensures ran { OnOk result (HasRun (form_of kernel.now) run.now.arguments run.now.items (length run.now.buffers) memory.old memory.new) }
    ensures text { IfOk result (λ text. text ≡ flat_map (shown_text run.now.buffers run.now.items memory.new) run.now.shows) }
    ensures bytes { (i : ℕ) → slice_index memory.new i < 256 }
    ensures bytes_before { (i : ℕ) → slice_index memory.old i < 256 }
{
    let buffers = run.buffers.as_slice();
    run_kernel(
        alloc,
        kernel,
        run.arguments.as_slice(),
        run.items,
        buffers.len() as u32,
        memory,
    )?;
    print_buffers(alloc, buffers, run.items, memory, run.shows.as_slice())
}

/// Launches a kernel over buffers with these contents, and gives the text of the buffers that are to be printed.
pub fn print_launch(
    alloc: Global,
    run: &RunWords,
    kernel: &Kernel,
    contents: &[Text],
) -> Result<Text, Memory>
    requires launchable { IsLaunchable (form_of kernel.now) run.now.arguments run.now.items (length run.now.buffers) }
    requires low { AreLow (form_of kernel.now) }
    requires count { length contents.now ≡ length run.now.buffers }
    requires lengths { All (λ bytes. length bytes ≡ 4 * run.now.items) contents.now }
    requires few_buffers { length run.now.buffers ≤ 16 }
    requires shows { All (λ b. b < length run.now.buffers) run.now.shows }
    ensures { IfOk result (λ text. (left : ℕ → ℕ → ℕ)
        × LaunchLeaves (launch_of (form_of kernel.now) run.now.arguments run.now.items (length run.now.buffers)) (bytes_in contents.now) left
        × (text ≡ output_text run.now left)) }
{
    let mut memory = lay_out(alloc, contents, run.items)?;
    run_and_print(alloc, run, kernel, memory.as_mut_slice())
}
