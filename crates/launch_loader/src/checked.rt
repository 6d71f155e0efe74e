//! Launches that may run.
ghost use Rattle.std.specs.Prelude.{◌≡◌, Err, MatchResult};
ghost use Rattle.launch_loader.specs.declared.faults.LaunchFault.{LaunchFault};
ghost use Rattle.launch_loader.specs.Checking.{IsChecked, IsRefused, IsUnchecked, Passes};
ghost use Rattle.launch_loader.specs.Conditions.{CanCheck, case_of, layout_of};
ghost use Rattle.vx_layout.specs.Launching.{Accepted};

use crate::buffers::BufShapeList;
use crate::checks::check_arguments;
use crate::faults::LaunchFault;
use crate::locals::all_local_bytes;
use crate::ranges::check_range;
use crate::words::{are_word_args, are_words};
use launch_plans::{ArgList, Plan, Shape};
use std::alloc::Global;
use vx_isa::Image;

// The most bytes of the `__local` arrays of a group.
const LOCAL_LIMIT: u64 = 262_144;

/// A launch that may run.
#[derive(Debug, Drop)]
pub struct Checked {
    /// What it was asked to be.
    pub plan: Plan,
    /// Where the buffers lie.
    pub buffers: BufShapeList,
}

/// Whether a launch may run.
fn check_all(
    image: &Image,
    plan: &Plan,
    shape: &Shape,
    buffers: &BufShapeList,
) -> Result<(), LaunchFault>
    requires { CanCheck (case_of image.now plan.now shape.now buffers.now) }
    ensures { MatchResult result
        (λ _. Passes (case_of image.now plan.now shape.now buffers.now))
        (IsRefused (case_of image.now plan.now shape.now buffers.now)) }
{
    let kinds = image.params.as_slice();
    let args = plan.args.as_slice();
    check_arguments(buffers.as_slice(), kinds, args)?;
    check_range(&plan.range, shape.warps, shape.lanes)?;
    let bytes = all_local_bytes(kinds, args, image.locals.as_slice());
    if bytes > LOCAL_LIMIT {
        return Err(LaunchFault::LocalMemory { bytes });
    }
    Ok(())
}

/// A launch that nothing refuses is accepted.
fn is_accepted(image: &Image, plan: &Plan, shape: &Shape, buffers: &BufShapeList)
    requires can { CanCheck (case_of image.now plan.now shape.now buffers.now) }
    requires passes { Passes (case_of image.now plan.now shape.now buffers.now) }
    ensures { Accepted (layout_of (case_of image.now plan.now shape.now buffers.now)) }
{
    are_word_args(plan.args.as_slice());
    are_words(&plan.range.global);
}

/// A copy of a launch.
fn kept(alloc: Global, plan: &Plan, buffers: &BufShapeList) -> Result<Checked, LaunchFault>
    ensures { MatchResult result
        (λ c. (c.plan ≡ plan.now) × (c.buffers ≡ buffers.now))
        (λ fault. fault ≡ LaunchFault.Memory) }
{
    let Ok(args) = Vec::from_slice(alloc, plan.args.as_slice()) else {
        return Err(LaunchFault::Memory);
    };
    let Ok(shapes) = Vec::from_slice(alloc, buffers.as_slice()) else {
        return Err(LaunchFault::Memory);
    };
    Ok(Checked {
        plan: Plan {
            range: plan.range,
            args: ArgList { items: args },
        },
        buffers: BufShapeList { items: shapes },
    })
}

/// Checks a launch, and keeps it.
fn check_and_keep(
    alloc: Global,
    image: &Image,
    plan: &Plan,
    shape: &Shape,
    buffers: &BufShapeList,
) -> Result<Checked, LaunchFault>
    requires { CanCheck (case_of image.now plan.now shape.now buffers.now) }
    ensures { MatchResult result
        (IsChecked (case_of image.now plan.now shape.now buffers.now))
        (IsUnchecked (case_of image.now plan.now shape.now buffers.now)) }
{
    check_all(image, plan, shape, buffers)?;
    is_accepted(image, plan, shape, buffers);
    kept(alloc, plan, buffers)
}

/// Checks a launch of an image on a machine.
///
/// # Errors
///
/// Those of [`check_arguments`], else those of [`check_range`], else `LocalMemory` exactly if the
/// `__local` arrays of a group have more than 262,144 bytes, else `Memory` if the launch finds no room
/// to be kept.
pub fn check_launch(
    alloc: Global,
    image: &Image,
    plan: &Plan,
    shape: &Shape,
    buffers: &BufShapeList,
) -> Result<Checked, LaunchFault>
    requires { CanCheck (case_of image.now plan.now shape.now buffers.now) }
    ensures answer { MatchResult result
        (IsChecked (case_of image.now plan.now shape.now buffers.now))
        (IsUnchecked (case_of image.now plan.now shape.now buffers.now)) }
    ensures refused { (fault : LaunchFault)
        → IsRefused (case_of image.now plan.now shape.now buffers.now) fault → result ≡ Err fault }
{
    check_and_keep(alloc, image, plan, shape, buffers)
}
