//! The checks of a launch's arguments, in their order.
ghost use Rattle.std.specs.Prelude.{◌^◌, ◌<◌, ◌≤◌, length, MatchResult};
ghost use Rattle.launch_loader.specs.Refusals.{RefusesArguments, TakesArguments};

use crate::arguments::first_misfit;
use crate::buffers::BufShape;
use crate::faults::LaunchFault;
use crate::spaces::first_both;
use launch_plans::Arg;
use vx_base::ParamKind;

/// Whether the parameters of a kernel take these arguments.
///
/// # Errors
///
/// `Arguments` exactly where there are not as many as parameters, else `Argument` at the first that its
/// parameter does not take, else `Both` at the first that names a buffer which an earlier one names in
/// the other of `__constant` and `__global`.
pub fn check_arguments(
    buffers: &[BufShape],
    kinds: &[ParamKind],
    args: &[Arg],
) -> Result<(), LaunchFault>
    requires kinds { length kinds.now ≤ 16 }
    requires args { length args.now < 2 ^ 32 }
    ensures { MatchResult result (λ _. TakesArguments buffers.now kinds.now args.now)
        (RefusesArguments buffers.now kinds.now args.now) }
{
    if args.len() != kinds.len() {
        return Err(LaunchFault::Arguments {
            given: args.len() as u32,
            wanted: kinds.len() as u32,
        });
    }
    if let Some(place) = first_misfit(buffers, kinds, args) {
        return Err(LaunchFault::Argument { place });
    }
    if let Some(place) = first_both(kinds, args) {
        return Err(LaunchFault::Both { place });
    }
    Ok(())
}
