//! The forms of a kernel: as its text has it, with its calls expanded, in normal form, with flags in place of jumps, as code for
//! lanes, each lane alone, and as the words of an image, each lane alone and in the warps of a core.

ghost use Rattle.std.specs.Prelude.{◌≡◌, ◌<◌, ◌≤◌, ◌^◌, IfSome, Some, length, map, true};
ghost use Rattle.ocl_program.specs.Measures.{measured, own_depth};
ghost use Rattle.ocl_program.specs.Shapes.{function_node};
ghost use Rattle.ocl_inline.specs.Shapes.{kernel_of};
ghost use Rattle.ocl_inline.specs.FlatItems.{flat_at};
ghost use Rattle.structured.specs.Ready.{IsKernel};

use crate::bytes::Bytes;
use crate::cores::{CoreLaunch, CoreShape};
use crate::lanes::Lanes;
use crate::marks::marks_text;
use crate::rows::Row;
use crate::runs::{FormItems, Run, run_launch};
use crate::words::WordLanes;
use item_acts::{Bound, BoundList, ItemCode, Range};
use kernel_images::{CompileFault, compile};
use kir::{Kir, KirItems};
use kir_flow::flags;
use lane_kernels::lane_kernel;
use ocl_inline::{Flat, expand};
use ocl_launch::{fits, flat_items_of, items_of};
use ocl_norm::normalise;
use ocl_types::Program;
use std::alloc::{AllocError, Global};
use structured::laws::found_are_kernels;
use vx_base::{KindList, ListOf, Memory, ParamKind};
use vx_cc::front;
use vx_isa::Image;

/// The most bytes that a file may have.
const LIMIT: usize = 1_048_576;

/// The most levels that an expression may have with its calls expanded.
const LEVELS: u32 = 0x8000_0000;

/// How many bytes the buffer of a launch has.
const BYTES: u32 = 32;

/// The cores that run the image of a kernel: warps that are not full, full ones, and one warp for a group.
const SHAPES: [CoreShape; 3] = [
    CoreShape { warps: 8, lanes: 3 },
    CoreShape {
        warps: 16,
        lanes: 4,
    },
    CoreShape {
        warps: 1,
        lanes: 32,
    },
];

/// How many work-items a launch has, at most 64.
fn count_of(range: Range) -> u32 {
    let [x, y, z] = range.global;
    x.saturating_mul(y).saturating_mul(z).min(64)
}

/// What a parameter stands for: the buffer, or the row's number.
fn bound_of(row: &Row, kind: ParamKind) -> Bound {
    match kind {
        ParamKind::Scalar(_) => Bound::Value(row.scalar),
        ParamKind::Pointer { elem, .. } => {
            let count = BYTES.checked_div(elem.size().bytes()).unwrap_or(0);
            Bound::Array { place: 0, count }
        }
    }
}

/// What the parameters of a kernel stand for.
fn bounds_of(
    alloc: Global,
    row: &Row,
    program: &Program,
    kernel: u32,
) -> Result<BoundList, AllocError>
    requires { kernel < length program.now.functions.items }
{
    let mut items = Vec::new(alloc);
    for param in program.params(kernel).as_slice() {
        items.push(bound_of(row, param.kind))?;
    }
    Ok(ListOf { items })
}

/// What the parameters of a kernel are.
fn kinds_of(alloc: Global, program: &Program, kernel: u32) -> Result<KindList, AllocError>
    requires { kernel < length program.now.functions.items }
{
    let mut items = Vec::new(alloc);
    for param in program.params(kernel).as_slice() {
        items.push(param.kind)?;
    }
    Ok(ListOf { items })
}

/// Runs the items of a row's launch.
fn run_items<I: ItemCode>(alloc: Global, row: &Row, items: &I) -> Result<Run, Memory> {
    let askers = FormItems { form: items };
    run_launch(alloc, &askers, count_of(row.range), Bytes::of(row.given))
}

/// Runs a kernel as its text has it. None if its parameter is no pointer.
fn run_source(
    alloc: Global,
    row: &Row,
    program: &Program,
    kernel: u32,
) -> Result<Option<Run>, Memory>
    requires { kernel < length program.now.functions.items }
{
    let bounds = bounds_of(alloc, row, program, kernel)?;
    if !fits(program, kernel, &bounds) {
        return Ok(None);
    }
    let run = run_items(alloc, row, &items_of(program, kernel, row.range, bounds))?;
    Ok(Some(run))
}

/// Runs a kernel with its calls expanded. None if its parameter is no pointer.
fn run_flat(
    alloc: Global,
    row: &Row,
    program: &Program,
    kernel: u32,
    flat: &Flat,
) -> Result<Option<Run>, Memory>
    requires exists { kernel < length program.now.functions.items }
    requires flat { flat_at (map function_node program.now.functions.items) kernel ≡ Some (kernel_of flat.now) }
{
    let bounds = bounds_of(alloc, row, program, kernel)?;
    if !fits(program, kernel, &bounds) {
        return Ok(None);
    }
    let items = flat_items_of(program, kernel, flat, row.range, bounds);
    let run = run_items(alloc, row, &items)?;
    Ok(Some(run))
}

/// Runs structured code.
fn run_code(alloc: Global, row: &Row, code: &Kir, bounds: BoundList) -> Result<Run, Memory> {
    let items = KirItems {
        code,
        range: row.range,
        bounds,
    };
    run_items(alloc, row, &items)
}

/// The normal form of a flat kernel, if it has fewer than 2^32 variables.
fn normal_of(alloc: Global, flat: &Flat) -> Result<Option<Kir>, Memory> {
    if !ocl_norm::fits(flat) {
        return Ok(None);
    }
    let code = normalise(alloc, flat)?;
    Ok(Some(code))
}

/// Structured code without jumps, if it has fewer than 2^32 variables.
fn flagged_of(alloc: Global, code: &Kir) -> Result<Option<Kir>, Memory> {
    if !kir_flow::fits(code) {
        return Ok(None);
    }
    let made = flags(alloc, code)?;
    Ok(Some(made))
}

/// Says that a form asks for other actions than the source does, if it does so.
fn push_difference(
    said: &mut String,
    form: &str,
    source: &str,
    actions: &str,
) -> Result<(), AllocError> {
    if actions == source {
        return Ok(());
    }
    said.push_str(", other actions with ")?;
    said.push_str(form)
}

/// Says which forms of structured code ask for other actions than the source does.
fn push_code(
    said: &mut String,
    alloc: Global,
    row: &Row,
    program: &Program,
    kernel: u32,
    flat: &Flat,
    source: &str,
) -> Result<(), Memory>
    requires { kernel < length program.now.functions.items }
{
    let Some(normal) = normal_of(alloc, flat)? else {
        said.push_str(", no normal form")?;
        return Ok(());
    };
    let ran = run_code(alloc, row, &normal, bounds_of(alloc, row, program, kernel)?)?;
    push_difference(said, "normal form", source, ran.actions.as_str())?;
    let Some(flagged) = flagged_of(alloc, &normal)? else {
        said.push_str(", no flags")?;
        return Ok(());
    };
    let ran = run_code(
        alloc,
        row,
        &flagged,
        bounds_of(alloc, row, program, kernel)?,
    )?;
    push_difference(said, "flags", source, ran.actions.as_str())?;
    Ok(())
}

/// Says that lanes alone ask for other actions than the source does, if they do so.
fn push_lanes(
    said: &mut String,
    alloc: Global,
    row: &Row,
    program: &Program,
    kernel: u32,
    source: &str,
) -> Result<(), Memory>
    requires exists { kernel < length program.now.functions.items }
    requires kernel { IsKernel (map function_node program.now.functions.items) kernel }
    requires depth { measured own_depth (map function_node program.now.functions.items) kernel ≤ 2 ^ 31 }
{
    let code = lane_kernel(alloc, program, kernel)?;
    let kinds = kinds_of(alloc, program, kernel)?;
    let bounds = bounds_of(alloc, row, program, kernel)?;
    let lanes = Lanes {
        code: &code,
        range: row.range,
        kinds: kinds.as_slice(),
        bounds: bounds.as_slice(),
    };
    let ran = run_launch(alloc, &lanes, count_of(row.range), Bytes::of(row.given))?;
    push_difference(said, "lanes", source, ran.actions.as_str())?;
    Ok(())
}

/// Says that lanes alone at the words of an image ask for other actions than the source does, if they do so. In which turns of its loops
/// a lane waits is not in the words.
fn push_words(
    said: &mut String,
    alloc: Global,
    row: &Row,
    image: &Image,
    bounds: &[Bound],
    source: &str,
) -> Result<(), Memory> {
    let lanes = WordLanes {
        image,
        range: row.range,
        bounds,
    };
    let ran = run_launch(alloc, &lanes, count_of(row.range), Bytes::of(row.given))?;
    push_difference(said, "words", source, ran.without_points.as_str())?;
    Ok(())
}

/// How a launch ends, without the item that fails a check: which of several does so first turns on the warps.
fn without_item(end: &str) -> &str {
    match end.split_once(" of item ") {
        Some((fault, _item)) => fault,
        None => end,
    }
}

/// Says on which cores the launch of an image ends otherwise than the items of the source do, if there are any.
fn push_cores(
    said: &mut String,
    alloc: Global,
    row: &Row,
    image: &Image,
    bounds: &[Bound],
    source: &str,
) -> Result<(), Memory> {
    for shape in SHAPES {
        let launch = CoreLaunch {
            image,
            range: row.range,
            bounds,
            shape,
        };
        if !launch.has_room() {
            continue;
        }
        let end = launch.run(alloc, row.given)?;
        if without_item(end.as_str()) != without_item(source) {
            let CoreShape { warps, lanes } = shape;
            said.push_str(format!(in alloc; ", on {warps} warps of {lanes}: {end}")?.as_str())?;
        }
    }
    Ok(())
}

/// Says what the image of a kernel does otherwise than its source, or why it has none.
fn push_image(
    said: &mut String,
    alloc: Global,
    row: &Row,
    program: &Program,
    kernel: u32,
    source: &Run,
) -> Result<(), Memory>
    requires { kernel < length program.now.functions.items }
{
    let image = match compile(alloc, program, b"k") {
        Ok(image) => image,
        Err(CompileFault::Memory) => return Err(Memory),
        Err(fault) => {
            said.push_str(format!(in alloc; ", no image: {fault}")?.as_str())?;
            return Ok(());
        }
    };
    let bounds = bounds_of(alloc, row, program, kernel)?;
    let actions = source.without_points.as_str();
    push_words(said, alloc, row, &image, bounds.as_slice(), actions)?;
    push_cores(
        said,
        alloc,
        row,
        &image,
        bounds.as_slice(),
        source.end.as_str(),
    )
}

/// How the launch of a kernel ends, and which forms of it ask for other actions than the source does.
fn answer_kernel(alloc: Global, row: &Row, program: &Program, kernel: u32) -> Result<String, Memory>
    requires exists { kernel < length program.now.functions.items }
    requires kernel { IsKernel (map function_node program.now.functions.items) kernel }
    requires depth { measured own_depth (map function_node program.now.functions.items) kernel ≤ 2 ^ 31 }
{
    let Some(source) = run_source(alloc, row, program, kernel)? else {
        return Ok(String::from_str(alloc, "another parameter")?);
    };
    let mut said = String::from_str(alloc, source.end.as_str())?;
    let actions = source.actions.as_str();
    let flat = expand(alloc, program, kernel)?;
    if let Some(ran) = run_flat(alloc, row, program, kernel, &flat)? {
        push_difference(&mut said, "calls expanded", actions, ran.actions.as_str())?;
    }
    push_code(&mut said, alloc, row, program, kernel, &flat, actions)?;
    push_lanes(&mut said, alloc, row, program, kernel, actions)?;
    push_image(&mut said, alloc, row, program, kernel, &source)?;
    Ok(said)
}

/// The number of the kernel `k`.
fn kernel_of(program: &Program) -> Option<u32>
    ensures exists { IfSome result (λ k. k < length program.now.functions.items) }
    ensures kernel { IfSome result (λ k. IsKernel (map function_node program.now.functions.items) k) }
{
    found_are_kernels();
    program.find(b"k")
}

/// Whether the expressions of a kernel have few enough levels for structured code.
fn is_shallow(program: &Program, kernel: u32) -> bool
    requires { kernel < length program.now.functions.items }
    ensures { result ≡ true → measured own_depth (map function_node program.now.functions.items) kernel ≤ 2 ^ 31 }
{
    program.measures(kernel).depth <= LEVELS
}

/// What a row with a kernel comes to.
fn answer_program(alloc: Global, row: &Row, program: &Program) -> Result<String, Memory> {
    let Some(kernel) = kernel_of(program) else {
        return Ok(String::from_str(alloc, "no kernel k")?);
    };
    if !is_shallow(program, kernel) {
        return Ok(String::from_str(alloc, "too deep")?);
    }
    match row.wanted.as_str().strip_prefix("marks ") {
        Some(wanted) => marks_text(alloc, program, kernel, wanted),
        None => answer_kernel(alloc, row, program, kernel),
    }
}

/// What a row comes to: how the launch of its kernel `k` ends, and which forms of it ask for other actions than the source does.
pub fn answer(alloc: Global, row: &Row) -> Result<String, Memory> {
    let text = row.text.as_bytes();
    if text.len() > LIMIT {
        return Ok(String::from_str(alloc, "too long")?);
    }
    let program = match front(alloc, text) {
        Ok(program) => program,
        Err(fault) => {
            let pos = fault.pos;
            return Ok(format!(in alloc; "{} {}:{}", fault.kind, pos.line, pos.col)?);
        }
    };
    answer_program(alloc, row, &program)
}
