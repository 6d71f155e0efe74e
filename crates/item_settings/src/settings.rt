//! What a work-item knows of its launch: its numbers, and the arrays of its kernel.
ghost use Rattle.std.specs.Prelude.{◌≡◌, ◌+◌, ◌-◌, ◌*◌, ◌/◌, ◌%◌, ◌^◌, ◌<◌, ◌≤◌, count_by, min};
ghost use Rattle.std.specs.Option.{option_copied};
ghost use Rattle.ocl_program.specs.Measures.{cut};
ghost use Rattle.item_settings.specs.Settings.{array_bound, array_of, bound_array as bound_array_of, coordinate as coordinate_of, declared_array, global_id, group_id, group_number, group_size as group_size_of, groups_in as groups_of, id_of, is_local_param as is_local_param_of, is_writable as is_writable_of, local_id, size_in as size_of};

use crate::arrays::ItemArray;
use item_acts::{Bound, Range};
use ocl_ast::Param;
use ocl_program::{ArrayRef, Builtin, LocalArray};
use vx_base::{Elem, ParamKind, Space};

/// A work-item of a launch of a kernel.
#[derive(Clone, Copy)]
pub struct Setting<'a> {
    /// The kernel's parameters in order.
    pub params: &'a [Param],
    /// The `__local` arrays that it declares, in order.
    pub arrays: &'a [LocalArray],
    /// The work-items of the launch.
    pub range: Range,
    /// What the kernel's parameters stand for.
    pub bounds: &'a [Bound],
    /// The number of the item.
    pub item: u32,
}

/// An array that has no element.
const NO_ARRAY: ItemArray = ItemArray {
    local: false,
    number: 0,
    count: 0,
    elem: Elem::Int,
    writable: false,
};

impl<'a> Setting<'a> {
    /// The array that the kernel names so.
    pub fn array(&self, array: ArrayRef) -> ItemArray
        ensures { result ≡ array_of self.now.params.now self.now.arrays.now self.now.bounds.now array }
    {
        match array {
            ArrayRef::Parameter(k) => {
                let k = k as usize;
                bound_at(self.params.get(k), self.bounds.get(k))
            }
            ArrayRef::Declared(k) => { declared_at(self.params, k, self.arrays.get(k as usize)) }
        }
    }

    /// The item's group.
    pub fn group(&self) -> u32
        ensures { result ≡ group_number self.now.range self.now.item }
    {
        quotient(self.item, group_size(self.range))
    }

    /// What a built-in function of a dimension gives (OpenCL C 1.2, section 6.12.1).
    pub fn id(&self, which: Builtin, d: u32) -> u32
        ensures { result ≡ id_of self.now.range self.now.item which d }
    {
        match which {
            Builtin::GlobalId => self.global_id(d),
            Builtin::LocalId => self.local_id(d),
            Builtin::GroupId => self.group_id(d),
            Builtin::GlobalSize => size_in(self.range, self.range.global, d),
            Builtin::LocalSize => size_in(self.range, self.range.local, d),
            Builtin::NumGroups => groups_in(self.range, d),
            Builtin::WorkDim
            | Builtin::GlobalOffset
            | Builtin::Min
            | Builtin::Max
            | Builtin::Clamp
            | Builtin::Abs
            | Builtin::MulHi => 0,
        }
    }

    /// The number of the item's group in a dimension.
    fn group_id(&self, d: u32) -> u32
        ensures { result ≡ group_id self.now.range self.now.item d }
    {
        coordinate(
            groups_in(self.range, 0),
            groups_in(self.range, 1),
            self.group(),
            d,
        )
    }

    /// The number of the item in its group in a dimension.
    #[tactic(auto, using(crate::proofs::Sizes::rest_of_cut))]
    fn local_id(&self, d: u32) -> u32
        ensures { result ≡ local_id self.now.range self.now.item d }
    {
        let first = size_in(self.range, self.range.local, 0);
        let second = size_in(self.range, self.range.local, 1);
        coordinate(
            first,
            second,
            remainder(self.item, group_size(self.range)),
            d,
        )
    }

    /// The number of the item in a dimension.
    fn global_id(&self, d: u32) -> u32
        ensures { result ≡ global_id self.now.range self.now.item d }
    {
        self.group_id(d)
            .wrapping_mul(size_in(self.range, self.range.local, d))
            .wrapping_add(self.local_id(d))
    }
}

/// The size of a dimension, and 1 for a dimension past the last.
fn size_in(range: Range, sizes: [u32; 3], d: u32) -> u32
    ensures { result ≡ size_of range sizes d }
{
    if d < range.dims {
        sizes.get(d as usize).copied().unwrap_or(0)
    } else {
        1
    }
}

/// How many items a group has, cut at 2^64 - 1.
fn group_size(range: Range) -> u64
    ensures { result ≡ min (group_size_of range) (2 ^ 64 - 1) }
{
    let first = u64::from(size_in(range, range.local, 0));
    let second = u64::from(size_in(range, range.local, 1));
    let third = u64::from(size_in(range, range.local, 2));
    (first * second).saturating_mul(third)
}

/// How many groups a dimension has.
fn groups_in(range: Range, d: u32) -> u32
    ensures { result ≡ groups_of range d }
{
    size_in(range, range.global, d)
        .checked_div(size_in(range, range.local, d))
        .unwrap_or(0)
}

/// A word over a size of a group that may be cut.
fn quotient(item: u32, size: u64) -> u32
    ensures { result ≡ item / size }
{
    u64::from(item).checked_div(size).unwrap_or(0) as u32
}

/// What is left of a word over a size of a group that may be cut.
fn remainder(item: u32, size: u64) -> u32
    ensures { result ≡ item % size }
{
    u64::from(item).checked_rem(size).unwrap_or(u64::from(item)) as u32
}

/// A coordinate of a number in a box whose first two sizes are these.
fn coordinate(first: u32, second: u32, n: u32, d: u32) -> u32
    ensures { result ≡ coordinate_of first second n d }
{
    match d {
        0 => n.checked_rem(first).unwrap_or(n),
        1 => {
            let rest = n.checked_div(first).unwrap_or(0);
            rest.checked_rem(second).unwrap_or(rest)
        }
        2 => quotient(n, u64::from(first) * u64::from(second)),
        _ => 0,
    }
}

/// What a parameter stands for as an array, where both are there.
fn bound_at(param: Option<&Param>, bound: Option<&Bound>) -> ItemArray
    ensures { result ≡ array_bound (option_copied param.entry) (option_copied bound.entry) }
{
    match param {
        Some(param) => match bound {
            Some(bound) => bound_array(param.kind, *bound),
            None => NO_ARRAY,
        },
        None => NO_ARRAY,
    }
}

/// What a parameter of this kind stands for as an array.
fn bound_array(kind: ParamKind, bound: Bound) -> ItemArray
    ensures { result ≡ bound_array_of kind bound }
{
    let ParamKind::Pointer {
        space,
        elem,
        readonly,
    } = kind
    else {
        return NO_ARRAY;
    };
    match bound {
        Bound::Array { place, count } => ItemArray {
            local: matches!(space, Space::Local),
            number: place,
            count,
            elem,
            writable: is_writable(space, readonly),
        },
        Bound::Value(_) => NO_ARRAY,
    }
}

/// Whether a store may change an array.
fn is_writable(space: Space, readonly: bool) -> bool
    ensures { result ≡ is_writable_of space readonly }
{
    match space {
        Space::Constant => false,
        Space::Global | Space::Local => !readonly,
    }
}

/// A `__local` array that the kernel declares.
fn declared_at(params: &[Param], k: u32, array: Option<&LocalArray>) -> ItemArray
    ensures { result ≡ declared_array params.now k (option_copied array.entry) }
{
    match array {
        Some(array) => ItemArray {
            local: true,
            number: local_number(params, k),
            count: array.count,
            elem: array.elem,
            writable: true,
        },
        None => NO_ARRAY,
    }
}

/// The number of a declared `__local` array among all local arrays.
fn local_number(params: &[Param], k: u32) -> u32
    ensures { result ≡ cut (count_by is_local_param_of params.now + k) }
{
    cut_word(local_params(params)).saturating_add(k)
}

/// A count as a word, cut at 2^32 - 1.
fn cut_word(n: usize) -> u32
    ensures { result ≡ cut n }
{
    u32::try_from(n).unwrap_or(u32::MAX)
}

/// How many parameters are `__local` arrays.
fn local_params(params: &[Param]) -> usize
    ensures { result ≡ count_by is_local_param_of params.now }
{
    params.iter().filter(|param| is_local_param(param)).count()
}

/// Whether a parameter is a `__local` array.
fn is_local_param(param: &Param) -> bool
    ensures { result ≡ is_local_param_of param.now }
{
    match param.kind {
        ParamKind::Pointer { space, .. } => matches!(space, Space::Local),
        ParamKind::Scalar(_) => false,
    }
}
