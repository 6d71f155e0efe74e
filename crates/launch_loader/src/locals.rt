//! The bytes of the `__local` arrays of a group.
ghost use Rattle.std.specs.Prelude.{◌≡◌, ◌+◌, ◌*◌, ◌^◌, ◌≤◌, length};
ghost use Rattle.vx_base.specs.Values.{elem_bytes};
ghost use Rattle.vx_layout.specs.Addresses.{in_words};
ghost use Rattle.launch_loader.specs.Locals.{declared_words, given_at, given_bytes, given_words};

use launch_plans::Arg;
use vx_base::{Elem, ParamKind, Space};

/// Bytes, rounded up to whole words.
fn whole_words(bytes: u64) -> u64
    requires { bytes ≤ 2 ^ 35 }
    ensures value { result ≡ in_words bytes }
    ensures most { result ≤ 2 ^ 36 }
{
    (bytes + 3) / 4 * 4
}

/// The bytes of so many elements.
fn elements(elem: Elem, count: u32) -> u64
    ensures value { result ≡ count * elem_bytes elem }
    ensures most { result ≤ 2 ^ 35 }
{
    u64::from(count) * u64::from(elem.size().bytes())
}

/// The bytes of the array that is given for a parameter, and 0 where none is.
fn array_bytes(kind: ParamKind, arg: Arg) -> u64
    ensures value { result ≡ given_bytes kind arg }
    ensures most { result ≤ 2 ^ 35 }
{
    match kind {
        ParamKind::Scalar(_) => 0,
        ParamKind::Pointer { space, elem, .. } => match space {
            Space::Local => match arg {
                Arg::Local(count) => elements(elem, count),
                Arg::Buffer(_) | Arg::Int(_) => 0,
            },
            Space::Global | Space::Constant => 0,
        },
    }
}

/// The same at a place.
fn array_bytes_at(kinds: &[ParamKind], args: &[Arg], place: usize) -> u64
    ensures value { result ≡ given_at kinds.now args.now place }
    ensures most { result ≤ 2 ^ 35 }
{
    let Some(kind) = kinds.get(place) else {
        return 0;
    };
    let Some(arg) = args.get(place) else {
        return 0;
    };
    array_bytes(*kind, *arg)
}

/// The bytes of the arrays that are given for parameters.
fn given_words(kinds: &[ParamKind], args: &[Arg]) -> u64
    requires few { length args.now ≤ 16 }
    ensures value { result ≡ given_words kinds.now args.now }
    ensures most { result ≤ 16 * 2 ^ 36 }
{
    let mut bytes = 0;
    for place in 0..args.len() {
        bytes += whole_words(array_bytes_at(kinds, args, place));
    }
    bytes
}

/// The bytes of the arrays that a kernel declares.
fn declared_words(sizes: &[u32]) -> u64
    requires few { length sizes.now ≤ 16 }
    ensures value { result ≡ declared_words sizes.now }
    ensures most { result ≤ 16 * 2 ^ 36 }
{
    let mut bytes = 0;
    for place in 0..sizes.len() {
        bytes += whole_words(u64::from(sizes[place]));
    }
    bytes
}

/// The bytes of the `__local` arrays of a group, each rounded up to whole words.
pub fn all_local_bytes(kinds: &[ParamKind], args: &[Arg], sizes: &[u32]) -> u64
    requires args { length args.now ≤ 16 }
    requires sizes { length sizes.now ≤ 16 }
    ensures { result ≡ given_words kinds.now args.now + declared_words sizes.now }
{
    given_words(kinds, args) + declared_words(sizes)
}
