//! Which buffers are named as `__constant` and as `__global`.
ghost use Rattle.std.specs.Prelude.{◌≡◌, ◌^◌, ◌<◌, true, length, MatchBool, MatchOption};
ghost use Rattle.launch_loader.specs.Spaces.{ClashesEarlier, IsBoth, IsClear, NoneBoth, are_other, clash_at, named_at};

use launch_plans::Arg;
use vx_base::{ParamKind, Space};

/// A buffer that an argument names, and the space of its parameter.
#[derive(Clone, Copy, Debug, PartialEq, Eq)]
pub struct BufferUse {
    /// Where the parameter's array lives.
    pub space: Space,
    /// The number of the buffer.
    pub buffer: u32,
}

/// The buffer that the argument at a place names.
fn named(kinds: &[ParamKind], args: &[Arg], place: usize) -> Option<BufferUse>
    ensures { result ≡ named_at kinds.now args.now place }
{
    let Some(ParamKind::Pointer { space, .. }) = kinds.get(place) else {
        return None;
    };
    let Some(Arg::Buffer(buffer)) = args.get(place) else {
        return None;
    };
    Some(BufferUse {
        space: *space,
        buffer: *buffer,
    })
}

/// Whether one space is `__constant` and the other `__global`.
fn is_other(one: Space, other: Space) -> bool
    ensures { result ≡ are_other one other }
{
    match one {
        Space::Constant => matches!(other, Space::Global),
        Space::Global => matches!(other, Space::Constant),
        Space::Local => false,
    }
}

/// Whether the arguments at two places name one buffer, the one as `__constant` and the other as
/// `__global`.
fn clashes(kinds: &[ParamKind], args: &[Arg], earlier: usize, place: usize) -> bool
    ensures { result ≡ clash_at kinds.now args.now earlier place }
{
    let Some(one) = named(kinds, args, earlier) else {
        return false;
    };
    let Some(other) = named(kinds, args, place) else {
        return false;
    };
    is_other(one.space, other.space) && one.buffer == other.buffer
}

/// An earlier place with which a place clashes.
fn earlier_clash(kinds: &[ParamKind], args: &[Arg], place: usize) -> Option<usize>
    ensures { MatchOption result (IsClear kinds.now args.now place)
        (λ j. (j < place) × (clash_at kinds.now args.now j place ≡ true)) }
{
    for earlier in 0..place {
        if clashes(kinds, args, earlier, place) {
            return Some(earlier);
        }
    }
    None
}

/// Whether a place clashes with an earlier one.
fn has_earlier_clash(kinds: &[ParamKind], args: &[Arg], place: usize) -> bool
    ensures { MatchBool result (ClashesEarlier kinds.now args.now place)
        (IsClear kinds.now args.now place) }
{
    match earlier_clash(kinds, args, place) {
        Some(_) => true,
        None => false,
    }
}

/// The place of the first argument that names a buffer which an earlier one names in the other of
/// `__constant` and `__global`.
pub fn first_both(kinds: &[ParamKind], args: &[Arg]) -> Option<u32>
    requires few { length args.now < 2 ^ 32 }
    ensures { MatchOption result (NoneBoth kinds.now args.now) (IsBoth kinds.now args.now) }
{
    for place in 0..args.len() {
        if has_earlier_clash(kinds, args, place) {
            return Some(place as u32);
        }
    }
    None
}
