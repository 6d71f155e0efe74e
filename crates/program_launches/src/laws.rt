//! Laws of launches of kernels of typed functions, each as a contract. The functions themselves do nothing.
ghost use Rattle.program_launches.specs.Laws.{DeclaredAreThere, LaunchesKeepToArrays, LaunchesSettle, LaunchesStayInBounds, TameAreOrderly, UnchangedAreConstant};

/// More small steps never change what an item of a launch asks for.
pub fn launches_settle()
    ensures { LaunchesSettle }
{}

/// Where each array of the kernel ends within the launch's array of its number, items ask for bytes of the launch alone.
pub fn launches_stay_in_bounds()
    ensures { LaunchesStayInBounds }
{}

/// There items ask for bytes of the launch alone whatever they are answered, and store to no buffer of any that are constant
/// (`keep`): such are the buffers for which no parameter stands that may be stored to (`unchanged`).
pub fn launches_keep_to_arrays()
    ensures keep { LaunchesKeepToArrays }
    ensures unchanged { UnchangedAreConstant }
{}

/// There a launch with items in its groups is orderly, once it is tame.
pub fn tame_are_orderly()
    ensures { TameAreOrderly }
{}

/// In a launch of a kernel of a file each array is there that the kernel declares, behind those of its `__local` parameters.
pub fn declared_are_there()
    ensures { DeclaredAreThere }
{}
