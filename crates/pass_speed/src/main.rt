//! The program `pass_speed`: takes the kernel `k` of a text from standard input through the passes of the compiler, for
//! measurements of speed and size (`bench/`). Its words are how far it goes, `program` (the passes are not begun), `structured`,
//! `uniform` or `lowered`, and how many times. It prints the measures of the kernel (nodes, variables, levels of expressions,
//! branches and loops within one another, calls within one another), and then, as far as it has come, the variables of the
//! structured code, how many of these are uniform, the operations for lanes, their registers, and their words of machine code.
//! It ends with 1 where the text has no such kernel, and with 2 where its words are none of these or the text is too long.
#![tactic(auto)]

ghost use Rattle.std.specs.Prelude.{◌<◌, ◌≤◌, ◌^◌, IfOk, IfSome, length, map};
ghost use Rattle.kir.specs.Shapes.{code_of};
ghost use Rattle.ocl_program.specs.Measures.{measured, own_depth};
ghost use Rattle.ocl_program.specs.Shapes.{function_node};
ghost use Rattle.simt_lowering.specs.Bounds.{IsLimited, most_words};
ghost use Rattle.structured.specs.Ready.{IsKernel};

use kir::{Kir, Operand};
use ocl_types::Program;
use simt_lowering::lower;
use std::alloc::Global;
use std::env;
use std::io::{Read, Result as IoResult};
use std::process::ExitCode;
use structured::structured;
use uniformity::uniform;
use vcode::{VCode, VOp};
use vx_base::{Alu, Memory};
use vx_cc::front;

/// How far a kernel is taken.
#[derive(Clone, Copy, PartialEq, Eq)]
enum Stage {
    Program,
    Structured,
    Uniform,
    Lowered,
}

/// What a kernel came to, as far as it was taken.
#[derive(Clone, Copy)]
struct Counts {
    variables: u32,
    uniform: usize,
    operations: usize,
    registers: u32,
    words: usize,
}

/// The most bytes of a text.
const MOST_BYTES: usize = 1_048_576;
/// The most levels of an expression.
const MOST_DEPTH: u32 = 2_147_483_648;
/// A kernel of which nothing was made.
const NONE: Counts = Counts {
    variables: 0,
    uniform: 0,
    operations: 0,
    registers: 0,
    words: 0,
};

fn stage_of(word: &str) -> Option<Stage> {
    match word {
        "program" => Some(Stage::Program),
        "structured" => Some(Stage::Structured),
        "uniform" => Some(Stage::Uniform),
        "lowered" => Some(Stage::Lowered),
        _ => None,
    }
}

/// The words of machine code that a number takes.
fn number_words(number: u32) -> usize
    ensures { result ≤ 2 }
{
    match number {
        0 => 0,
        1..=2047 => 1,
        _ => 2,
    }
}

/// The words of machine code that an operand takes.
fn operand_words(operand: Operand) -> usize
    ensures { result ≤ 2 }
{
    match operand {
        Operand::Variable(_) => 1,
        Operand::Number(number) => number_words(number),
    }
}

/// The words of machine code that the right side of an operation takes: a shift has a place for its number.
fn right_words(op: Alu, operand: Operand) -> usize
    ensures { result ≤ 2 }
{
    match (op, operand) {
        (Alu::Sll | Alu::Srl | Alu::Sra, Operand::Number(0..=31)) => 0,
        (_, operand) => operand_words(operand),
    }
}

/// The words of machine code that an operation takes, where each register is a word of memory.
fn op_words(op: &VOp) -> usize {
    match op {
        VOp::Fresh => 10,
        VOp::Copy { value, .. } => operand_words(*value) + 1,
        VOp::Compute {
            op,
            left,
            right,
            ..
        } => operand_words(*left) + right_words(*op, *right) + 2,
        VOp::Cut { value, .. } => operand_words(*value) + 3,
        VOp::Word { .. } | VOp::Learn { .. } => 2,
        VOp::WordAt { index, .. } => operand_words(*index) + 4,
        VOp::Fetch { address, .. } => operand_words(*address) + 2,
        VOp::Write { address, value, .. } => operand_words(*address) + operand_words(*value) + 1,
        VOp::IfZero { test, .. } | VOp::IfNot { test, .. } => operand_words(*test) + 2,
        VOp::Split { test } => operand_words(*test) + 1,
        VOp::Pred { test, .. } | VOp::Leaves { test, .. } => operand_words(*test) + 2,
        VOp::Tmc { mask } => operand_words(*mask) + 1,
        VOp::Wspawn { count, .. } => operand_words(*count) + 3,
        VOp::Bar { .. } => 4,
        VOp::Goto { .. } | VOp::Join | VOp::Trap { .. } | VOp::Again { .. } => 1,
        VOp::Enter => 0,
    }
}

/// The words of machine code that operations take.
fn words(ops: &[VOp]) -> usize {
    let mut sum: usize = 0;
    for op in ops {
        sum = sum.saturating_add(op_words(op));
    }
    sum
}

/// The kernel `k` of a program, where no expression has too many levels.
#[tactic(auto, using(crate::proofs::Ready::few_levels, structured::proofs::Found::found_kernel))]
fn kernel_of(program: &Program) -> Option<u32>
    ensures kernel { IfSome result (λ k. IsKernel (map function_node program.now.functions.items) k) }
    ensures within { IfSome result (λ k. k < length program.now.functions.items) }
    ensures depth { IfSome result (λ k. measured own_depth (map function_node program.now.functions.items) k ≤ 2 ^ 31) }
{
    let kernel = program.find(b"k")?;
    if program.measures(kernel).depth > MOST_DEPTH {
        return None;
    }
    Some(kernel)
}

/// The kernel as structured code, which is ready to be lowered.
#[tactic(auto, using(crate::proofs::Ready::limited, crate::proofs::Ready::few_words))]
fn ready_code(alloc: Global, program: &Program, kernel: u32) -> Result<Kir, Memory>
    requires kernel { IsKernel (map function_node program.now.functions.items) kernel }
    requires depth { measured own_depth (map function_node program.now.functions.items) kernel ≤ 2 ^ 31 }
    ensures limited { IfOk result (λ code. IsLimited (code_of code)) }
    ensures fits { IfOk result (λ code. most_words (code_of code) < 2 ^ 32) }
{
    let code = structured(alloc, program, kernel)?;
    Ok(code)
}

/// What structured code comes to.
fn counts_of(alloc: Global, stage: Stage, code: &Kir) -> Result<Counts, Memory>
    requires limited { IsLimited (code_of code.now) }
    requires fits { most_words (code_of code.now) < 2 ^ 32 }
{
    let structured = Counts {
        variables: code.variables,
        ..NONE
    };
    if stage == Stage::Structured {
        return Ok(structured);
    }
    let marks = uniform(alloc, code)?;
    let marked = Counts {
        uniform: marks.count(),
        ..structured
    };
    if stage == Stage::Uniform {
        return Ok(marked);
    }
    let made = lower(alloc, code, &marks)?;
    Ok(with_code(marked, &made))
}

/// The counts with those of code for lanes.
fn with_code(counts: Counts, made: &VCode) -> Counts {
    Counts {
        operations: made.ops.len(),
        registers: made.registers,
        words: words(made.ops.as_slice()),
        ..counts
    }
}

/// What a kernel comes to that is taken to a stage again and again.
fn counts_at(
    alloc: Global,
    stage: Stage,
    times: usize,
    program: &Program,
    kernel: u32,
) -> Result<Counts, Memory>
    requires kernel { IsKernel (map function_node program.now.functions.items) kernel }
    requires depth { measured own_depth (map function_node program.now.functions.items) kernel ≤ 2 ^ 31 }
{
    let mut counts = NONE;
    for _ in 0..times {
        let code = ready_code(alloc, program, kernel)?;
        counts = counts_of(alloc, stage, &code)?;
    }
    Ok(counts)
}

/// The bytes of standard input, of which more than a text's are cut.
fn read_text(rt: &HostRuntime) -> IoResult<Vec<u8>> {
    let mut text = Vec::new(rt.alloc());
    rt.stdin()
        .take(MOST_BYTES as u64 + 1)
        .read_to_end(&mut text)?;
    Ok(text)
}

/// Prints what the kernel of a text comes to, and gives the status.
fn show(rt: &HostRuntime, stage: Stage, times: usize, text: &[u8]) -> u8
    requires { length text.now ≤ 1048576 }
{
    let Ok(program) = front(rt.alloc(), text) else {
        return 1;
    };
    let Some(kernel) = kernel_of(&program) else {
        return 1;
    };
    let times = if stage == Stage::Program { 0 } else { times };
    let Ok(counts) = counts_at(rt.alloc(), stage, times, &program, kernel) else {
        return 9;
    };
    let m = program.measures(kernel);
    let before = println!(rt;
        "{} {} {} {} {}",
        m.nodes, m.variables, m.depth, m.control, m.calls
    );
    let after = println!(rt;
        "{} {} {} {} {}",
        counts.variables, counts.uniform, counts.operations, counts.registers, counts.words
    );
    if before.is_ok() && after.is_ok() {
        0
    } else {
        9
    }
}

fn main(rt: HostRuntime) -> ExitCode {
    let Ok(mut words) = env::args(&rt) else {
        return ExitCode::from(9);
    };
    let _program = words.next();
    let (Some(stage), Some(times)) = (words.next(), words.next()) else {
        return ExitCode::from(2);
    };
    let (Some(stage), Ok(times)) = (stage_of(stage.as_str()), times.as_str().parse::<usize>())
    else {
        return ExitCode::from(2);
    };
    let Ok(text) = read_text(&rt) else {
        return ExitCode::from(9);
    };
    if text.len() > MOST_BYTES {
        return ExitCode::from(2);
    }
    ExitCode::from(show(&rt, stage, times, text.as_slice()))
}
