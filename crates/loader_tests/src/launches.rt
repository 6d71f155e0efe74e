//! The check of a launch: with no words of code, with two buffers (0 has ints, and 1 bytes), and in three dimensions.
ghost use Rattle.std.specs.Prelude.{◌≡◌, ◌≤◌, length, slice_get, IfOk, MatchBool, MatchOption, ⊤};
ghost use Rattle.launch_plans.specs.Shapes.{IsShape};
ghost use Rattle.loader_tests.specs.Launches.{AreKnown, AreSizes, IsPlain, IsSmall, is_known, two_buffers};

use item_acts::Range;
use launch_loader::checked::check_launch;
use launch_loader::{BufShape, BufShapeList, LaunchFault};
use launch_plans::{Arg, Plan, Shape, usual_shape};
use std::alloc::Global;
use vx_base::{Elem, KindList, ListOf, Memory, ParamKind, SizeList};
use vx_isa::Image;

/// The range of one item.
pub const ONE_ITEM: Range = Range {
    dims: 3,
    global: [1, 1, 1],
    local: [1, 1, 1],
};

/// What the check of a launch answers.
#[derive(Clone, Copy, Debug, PartialEq, Eq)]
pub enum Answer {
    /// The launch may run.
    Accepted,
    /// It is refused.
    Refused(LaunchFault),
    /// It is none that the tests can ask for.
    NotAsked,
}

fn is_known_at(args: &[Arg], place: usize) -> bool
    ensures { result ≡ is_known (slice_get args.now place) }
{
    match args.get(place) {
        Some(Arg::Buffer(buffer)) => *buffer < 2,
        _ => true,
    }
}

/// Whether the arguments name no buffer besides the two.
fn are_known(args: &[Arg]) -> bool
    ensures { MatchBool result (AreKnown args.now) ⊤ }
{
    for place in 0..args.len() {
        if !is_known_at(args, place) {
            return false;
        }
    }
    true
}

/// Whether each size is at least 1.
fn are_sizes(sizes: &[u32; 3]) -> bool
    ensures { MatchBool result (AreSizes sizes.now) ⊤ }
{
    for dimension in 0..3 {
        if sizes[dimension] == 0 {
            return false;
        }
    }
    true
}

fn is_small(image: &Image) -> bool
    ensures { MatchBool result (IsSmall image.now) ⊤ }
{
    image.words.len() <= 65536
        && image.slots <= 256
        && image.params.len() <= 16
        && image.locals.len() <= 16
}

fn is_plain(plan: &Plan) -> bool
    ensures { MatchBool result (IsPlain plan.now) ⊤ }
{
    if plan.range.dims != 3 || plan.args.len() > 1000 {
        return false;
    }
    if !are_sizes(&plan.range.global) {
        return false;
    }
    if !are_sizes(&plan.range.local) {
        return false;
    }
    are_known(plan.args.as_slice())
}

/// A machine whose cores have so many warps and lanes.
pub fn machine(warps: u32, lanes: u32) -> Option<Shape>
    ensures { MatchOption result ⊤ IsShape }
{
    if warps == 0 || warps > 16 || lanes == 0 || lanes > 32 {
        return None;
    }
    Some(Shape {
        warps,
        lanes,
        ..usual_shape()
    })
}

fn both_buffers(alloc: Global) -> Result<BufShapeList, Memory>
    ensures { IfOk result (λ buffers. buffers ≡ two_buffers) }
{
    let ints = BufShape {
        elem: Elem::Int,
        count: 16,
        start: 0,
    };
    let bytes = BufShape {
        elem: Elem::Uchar,
        count: 64,
        start: 64,
    };
    let items = Vec::from_slice(alloc, &[ints, bytes])?;
    Ok(ListOf { items })
}

/// An image of a kernel with these parameters and `__local` arrays.
pub fn kernel(alloc: Global, kinds: &[ParamKind], locals: &[u32]) -> Result<Image, Memory> {
    let params = Vec::from_slice(alloc, kinds)?;
    let sizes = Vec::from_slice(alloc, locals)?;
    Ok(Image {
        words: ListOf {
            items: Vec::new(alloc),
        },
        slots: 0,
        sites: ListOf {
            items: Vec::new(alloc),
        },
        params: ListOf { items: params },
        locals: ListOf { items: sizes },
    })
}

pub fn launch(alloc: Global, range: Range, args: &[Arg]) -> Result<Plan, Memory> {
    let items = Vec::from_slice(alloc, args)?;
    Ok(Plan {
        range,
        args: ListOf { items },
    })
}

/// What the check of a launch answers.
#[tactic(auto, using(crate::proofs::Cases::can_check))]
pub fn ask(alloc: Global, image: &Image, plan: &Plan, shape: &Shape) -> Result<Answer, Memory>
    requires { IsShape shape.now }
{
    if !is_small(image) || !is_plain(plan) {
        return Ok(Answer::NotAsked);
    }
    let buffers = both_buffers(alloc)?;
    match check_launch(alloc, image, plan, shape, &buffers) {
        Ok(_checked) => Ok(Answer::Accepted),
        Err(fault) => Ok(Answer::Refused(fault)),
    }
}

/// The same on the usual machine.
pub fn usual_answer(
    alloc: Global,
    kinds: &[ParamKind],
    locals: &[u32],
    range: Range,
    args: &[Arg],
) -> Result<Answer, Memory> {
    let image = kernel(alloc, kinds, locals)?;
    let plan = launch(alloc, range, args)?;
    ask(alloc, &image, &plan, &usual_shape())
}
