//! Which arguments the parameters of a kernel take, one by one.
ghost use Rattle.std.specs.Prelude.{◌≡◌, ◌^◌, ◌<◌, length, slice_get, MatchOption};
ghost use Rattle.vx_layout.specs.Launching.{is_local};
ghost use Rattle.launch_loader.specs.Refusals.{AllFit, IsMisfit, fits_at, has_elem, same_elem, takes};

use crate::buffers::BufShape;
use launch_plans::Arg;
use vx_base::{Elem, ParamKind, Space};

fn same_type(one: Elem, other: Elem) -> bool
    ensures { result ≡ same_elem one other }
{
    match one {
        Elem::Char => matches!(other, Elem::Char),
        Elem::Uchar => matches!(other, Elem::Uchar),
        Elem::Short => matches!(other, Elem::Short),
        Elem::Ushort => matches!(other, Elem::Ushort),
        Elem::Int => matches!(other, Elem::Int),
        Elem::Uint => matches!(other, Elem::Uint),
    }
}

fn is_local_space(space: Space) -> bool
    ensures { result ≡ is_local space }
{
    match space {
        Space::Local => true,
        Space::Global | Space::Constant => false,
    }
}

/// Whether a buffer has elements of a type.
fn holds(buffers: &[BufShape], buffer: u32, elem: Elem) -> bool
    ensures { result ≡ has_elem elem (slice_get buffers.now buffer) }
{
    match buffers.get(buffer as usize) {
        Some(shape) => same_type(elem, shape.elem),
        None => false,
    }
}

/// Whether a parameter takes an argument.
fn is_taken(buffers: &[BufShape], kind: ParamKind, arg: Arg) -> bool
    ensures { result ≡ takes buffers.now kind arg }
{
    match kind {
        ParamKind::Scalar(_) => matches!(arg, Arg::Int(_)),
        ParamKind::Pointer { space, elem, .. } => match arg {
            Arg::Local(_) => is_local_space(space),
            Arg::Buffer(buffer) => !is_local_space(space) && holds(buffers, buffer, elem),
            Arg::Int(_) => false,
        },
    }
}

/// The same of a place, and true where there is no parameter or no argument.
fn is_taken_at(buffers: &[BufShape], kinds: &[ParamKind], args: &[Arg], place: usize) -> bool
    ensures { result ≡ fits_at buffers.now kinds.now args.now place }
{
    let Some(kind) = kinds.get(place) else {
        return true;
    };
    let Some(arg) = args.get(place) else {
        return true;
    };
    is_taken(buffers, *kind, *arg)
}

/// The place of the first argument that its parameter does not take.
pub fn first_misfit(buffers: &[BufShape], kinds: &[ParamKind], args: &[Arg]) -> Option<u32>
    requires few { length args.now < 2 ^ 32 }
    ensures { MatchOption result (AllFit buffers.now kinds.now args.now)
        (IsMisfit buffers.now kinds.now args.now) }
{
    for place in 0..args.len() {
        if !is_taken_at(buffers, kinds, args, place) {
            return Some(place as u32);
        }
    }
    None
}
