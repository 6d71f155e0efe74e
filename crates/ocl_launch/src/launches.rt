//! Launches of kernels of a program.
ghost use Rattle.std.specs.Prelude.{◌≡◌, ◌==◌, ◌&&◌, ◌<◌, Some, length, map, slice_get, true, zip};
ghost use Rattle.std.specs.List.{list_all};
ghost use Rattle.ocl_program.specs.Shapes.{function_node};
ghost use Rattle.ocl_launch.specs.Fitting.{are_fitting, has_room as has_room_of, is_fitting as is_fitting_of, params_at};
ghost use Rattle.ocl_sem.specs.LaunchViews.{launch_in};
ghost use Rattle.ocl_inline.specs.FlatItems.{flat_at};
ghost use Rattle.ocl_inline.specs.Shapes.{kernel_of};
ghost use Rattle.flat_items.specs.Launches.{launch_of};

use flat_items::FlatItems;
use item_acts::{Bound, BoundList, Range};
use ocl_ast::Param;
use ocl_inline::Flat;
use ocl_sem::Items;
use ocl_types::Program;
use vx_base::{Elem, ParamKind, Size};

/// Whether an array of so many elements has at most 2^32 bytes.
fn has_room(elem: Elem, count: u32) -> bool
    ensures { result ≡ has_room_of elem count }
{
    match elem {
        Elem::Char | Elem::Uchar => true,
        Elem::Short | Elem::Ushort => count <= 0x8000_0000,
        Elem::Int | Elem::Uint => count <= 0x4000_0000,
    }
}

/// Whether a parameter may stand for this.
fn is_fitting(kind: ParamKind, bound: Bound) -> bool
    ensures { result ≡ is_fitting_of kind bound }
{
    match (kind, bound) {
        (ParamKind::Scalar(_), Bound::Value(_)) => true,
        (ParamKind::Pointer { elem, .. }, Bound::Array { count, .. }) => has_room(elem, count),
        (ParamKind::Scalar(_), Bound::Array { .. })
        | (ParamKind::Pointer { .. }, Bound::Value(_)) => false,
    }
}

/// Whether each parameter may stand for the bound at its place, as far as both lists go.
fn each_fits(params: &[Param], bounds: &[Bound]) -> bool
    ensures { result ≡ list_all (λ pair. is_fitting_of pair.0.kind pair.1) (zip params.now bounds.now) }
{
    params
        .iter()
        .zip(bounds)
        .all(|(param, bound)| is_fitting(param.kind, *bound))
}

/// Whether parameters may stand for these, in order.
fn all_fit(params: &[Param], bounds: &[Bound]) -> bool
    ensures { result ≡ are_fitting params.now bounds.now }
{
    params.len() == bounds.len() && each_fits(params, bounds)
}

/// Whether the parameters of a kernel may stand for these: a scalar for a number, and a pointer for an array of at most
/// 2^32 bytes.
pub fn fits(program: &Program, kernel: u32, bounds: &BoundList) -> bool
    requires { kernel < length program.now.functions.items }
    ensures { result ≡ are_fitting (params_at (map function_node program.now.functions.items) kernel) bounds.now }
{
    all_fit(program.params(kernel).as_slice(), bounds.as_slice())
}

/// The work-items of a launch of a kernel, whose parameters stand for these bounds in order.
pub fn items_of<'a>(program: &'a Program, kernel: u32, range: Range, bounds: BoundList) -> Items<'a>
    requires exists { kernel < length program.now.functions.items }
    requires kinds { are_fitting (params_at (map function_node program.now.functions.items) kernel) bounds ≡ true }
    ensures program { (launch_in result).program ≡ map function_node program.now.functions.items }
    ensures kernel { slice_get (map function_node program.now.functions.items) kernel ≡ Some (launch_in result).kernel }
    ensures range { (launch_in result).range ≡ range }
    ensures bounds { (launch_in result).bounds ≡ bounds }
{
    let functions = program.functions.as_slice();
    Items::of(functions, &functions[kernel as usize], range, bounds)
}

/// The work-items of a launch of a kernel with its calls expanded, whose parameters stand for these bounds in order.
pub fn flat_items_of<'a>(
    program: &Program,
    kernel: u32,
    flat: &'a Flat,
    range: Range,
    bounds: BoundList,
) -> FlatItems<'a>
    requires exists { kernel < length program.now.functions.items }
    requires kinds { are_fitting (params_at (map function_node program.now.functions.items) kernel) bounds ≡ true }
    requires flat { flat_at (map function_node program.now.functions.items) kernel ≡ Some (kernel_of flat.now) }
    ensures { launch_of result ≡ record { kernel = kernel_of flat.now; range = range; bounds = bounds } }
{
    FlatItems::of(flat, range, bounds)
}
