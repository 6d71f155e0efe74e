//! What a call comes to, stage by stage in the order of its answers: the words, and for `run` the kernel's file, its text, the
//! entry, the kernel's form, the buffers, the arguments and the run.
//!
//! [`answer`] is the whole; each stage gives its value or says why the call stops.

ghost use Rattle.std.specs.Prelude.{◌≡◌, ◌*◌, ◌<◌, ◌≤◌, All, length, map, string_bytes, Some, IfOk, IfErr, OnOk};
ghost use Rattle.ocl_program.specs.Shapes.{function_node};
ghost use Rattle.ocl_types.specs.Functions.{kernel_from};
ghost use Rattle.first_kernels.specs.FirstForms.{form_from, IsFit};
ghost use Rattle.first_kernels.specs.FirstTree.{form_of};
ghost use Rattle.vx_run.specs.Answers.{Chosen, FromArguments, FromCommand, FromRun, FromWords, Prints};
ghost use Rattle.vx_run.specs.Stages.{ComesTo, HasKernel, IsNoEntry, IsNoKernel, IsNoKernelOf, IsNotBuilt, IsPlain, IsRunnable, IsRunnableCommand, IsWrongCount, ReadsBehind, SourceHasKernel, StageFaults, StageMisses, StopsAt};

use crate::building::answer_build;
use crate::launch::print_launch;
use crate::loading::load_buffers;
use crate::programs::{SOURCE_LIMIT, program_of};
use crate::reading::read_file;
use crate::report::{Cause, LaunchKind};
use crate::stages::{Answer, Stop};
use crate::texts::{answer_asm, answer_dis};
use first_kernels::forms::kernel_of;
use first_kernels::tree::Kernel;
use ocl_program::TypedFunction;
use ocl_types::Program;
use std::alloc::Global;
use vx_base::Text;
use vx_words::{Command, RunWords, read_words};
use vx_world::Files;

/// The refusal of the one launch that the words ask for.
fn launch_stop(kind: LaunchKind) -> Stop
    ensures { result ≡ Stop.Refused (Cause.Launch 0 kind) }
{
    Stop::Refused(Cause::Launch { index: 0, kind })
}

/// The number of the kernel that has this name.
fn entry_of(program: &Program, name: &[u8]) -> Result<u32, Stop>
    ensures found { IfOk result (λ n. kernel_from 0 name.now (map function_node program.now.functions.items) ≡ Some n) }
    ensures within { IfOk result (λ n. n < length program.now.functions.items) }
    ensures stop { IfErr result (IsNoEntry (map function_node program.now.functions.items) name.now) }
{
    program.find(name).ok_or(launch_stop(LaunchKind::NoEntry))
}

/// The form of a function, if it is a kernel of assignments.
fn built_kernel(alloc: Global, function: &TypedFunction) -> Result<Kernel, Stop>
    ensures formed { IfOk result (λ kernel. form_from (function_node function.now) ≡ Some (form_of kernel)) }
    ensures fit { IfOk result (λ kernel. IsFit (form_of kernel)) }
    ensures stop { IfErr result (IsNotBuilt (function_node function.now)) }
{
    match kernel_of(alloc, function)? {
        Some(kernel) => Ok(kernel),
        None => Err(launch_stop(LaunchKind::NotBuilt)),
    }
}

/// The kernel of a program that has this name.
fn kernel_in(alloc: Global, program: &Program, name: &[u8]) -> Result<Kernel, Stop>
    ensures found { IfOk result (λ kernel. HasKernel (map function_node program.now.functions.items) name.now (form_of kernel)) }
    ensures fit { IfOk result (λ kernel. IsFit (form_of kernel)) }
    ensures stop { IfErr result (IsNoKernel (map function_node program.now.functions.items) name.now) }
{
    let number = entry_of(program, name)?;
    built_kernel(alloc, &program.functions[number as usize])
}

/// The kernel of this name in a file with these bytes.
fn kernel_of_source(alloc: Global, source: &[u8], name: &[u8]) -> Result<Kernel, Stop>
    ensures found { IfOk result (λ kernel. SourceHasKernel source.now name.now (form_of kernel)) }
    ensures fit { IfOk result (λ kernel. IsFit (form_of kernel)) }
    ensures stop { IfErr result (IsNoKernelOf source.now name.now) }
{
    let program = program_of(alloc, source)?;
    kernel_in(alloc, &program, name)
}

/// Whether the words give as many arguments as the kernel has parameters.
fn check_arguments(run: &RunWords, kernel: &Kernel) -> Result<(), Stop>
    requires { kernel.now.parameters ≤ 16 }
    ensures same { OnOk result (length run.now.arguments ≡ kernel.now.parameters) }
    ensures stop { IfErr result (IsWrongCount (length run.now.arguments) kernel.now.parameters) }
{
    let given = run.arguments.len();
    let wanted = kernel.parameters;
    if given == wanted as usize {
        return Ok(());
    }
    Err(launch_stop(LaunchKind::Arguments {
        given: given.min(u32::MAX as usize) as u32,
        wanted,
    }))
}

/// The text of the buffers that a launch of the kernel leaves.
fn launch(alloc: Global, run: &RunWords, kernel: &Kernel, contents: &[Text]) -> Result<Text, Stop>
    requires words { IsRunnable run.now }
    requires kernel { IsFit (form_of kernel.now) }
    requires count { length contents.now ≡ length run.now.buffers }
    requires lengths { All (λ bytes. length bytes ≡ 4 * run.now.items) contents.now }
    ensures text { IfOk result (λ text. (k : Chosen) → form_from k.kernel ≡ Some (form_of kernel.now) → FromArguments run.now k contents.now (Prints text)) }
    ensures stop { IfErr result (λ stop. (k : Chosen) → form_from k.kernel ≡ Some (form_of kernel.now) → StopsAt (FromArguments run.now k contents.now) stop) }
    ensures plain { IfErr result IsPlain }
{
    check_arguments(run, kernel)?;
    Ok(print_launch(alloc, run, kernel, contents)?)
}

/// What `run` comes to: the buffers that the launch leaves, printed.
fn answer_run<F: Files>(alloc: Global, files: &mut F, run: &RunWords) -> Result<Answer, Stop>
    requires { IsRunnable run.now }
    ensures comes { ComesTo (FromRun (F.held files.old) run.now) result }
    ensures faults { StageFaults result (F.faults files.old) (F.faults files.new) }
    ensures misses { StageMisses result (F.misses files.old) (F.misses files.new) }
{
    let source = read_file(alloc, files, &run.file, SOURCE_LIMIT + 1)?;
    let kernel = kernel_of_source(alloc, &source, run.entry.as_slice())?;
    let contents = load_buffers(alloc, files, run)?;
    let text = launch(alloc, run, &kernel, &contents)?;
    Ok(Answer::printed(alloc, text))
}

/// What a command comes to.
fn answer_command<F: Files>(alloc: Global, files: &mut F, command: &Command) -> Result<Answer, Stop>
    requires { IsRunnableCommand command.now }
    ensures comes { ComesTo (FromCommand (F.held files.old) command.now) result }
    ensures faults { StageFaults result (F.faults files.old) (F.faults files.new) }
    ensures misses { StageMisses result (F.misses files.old) (F.misses files.new) }
{
    match command {
        Command::Run(run) => answer_run(alloc, files, run),
        Command::Build { file, entry } => answer_build(alloc, files, file, entry),
        Command::Asm { file } => answer_asm(alloc, files, file),
        Command::Dis { file } => answer_dis(alloc, files, file),
    }
}

/// What a call with these words over these files comes to.
pub fn answer<F: Files>(alloc: Global, files: &mut F, words: &[String]) -> Result<Answer, Stop>
    ensures comes { ComesTo (FromWords (F.held files.old) (map string_bytes words.now)) result }
    ensures words { IfErr result (ReadsBehind (map string_bytes words.now)) }
    ensures faults { StageFaults result (F.faults files.old) (F.faults files.new) }
    ensures misses { StageMisses result (F.misses files.old) (F.misses files.new) }
{
    let command = read_words(alloc, words)?;
    answer_command(alloc, files, &command)
}
