//! Laws of the programs of files, each as a contract. The functions themselves do nothing.
ghost use Rattle.program_laws.specs.Laws.{AllSettle, ArraysAreSmall, CalleesAreSmall, CallsAreLevels, KernelArraysAreFew, KernelsAreShallow, KernelsAreSmall, NoneIsRecursive, ParamsAreFew, SitesAreFew, SmallAreFormed};

/// Each array of a function has at least one element and at most 262,144.
pub fn arrays_are_small()
    ensures { ArraysAreSmall }
{}

/// No function reaches a call of itself.
pub fn none_is_recursive()
    ensures { NoneIsRecursive }
{}

/// What a function has with its calls expanded is its own and what its callees have with theirs.
pub fn measures_settle()
    ensures { AllSettle }
{}

/// A kernel with its calls expanded has at most 256 variables and 16,384 nodes, and so has each function that one within these limits
/// calls. Such a function has no more barriers than nodes.
pub fn kernels_are_small()
    ensures kernels { KernelsAreSmall }
    ensures callees { CalleesAreSmall }
    ensures sites { SitesAreFew }
{}

/// In a kernel with its calls expanded at most 30 branches and loops, and at most 31 calls, stand within one another; it declares at most
/// 16 arrays, and each function has at most 16 parameters.
pub fn kernels_are_shallow()
    ensures nested { KernelsAreShallow }
    ensures arrays { KernelArraysAreFew }
    ensures params { ParamsAreFew }
{}

/// In a function within the limits no more calls stand within one another than an expression has levels.
pub fn calls_are_levels()
    ensures { CallsAreLevels }
{}

/// In a function within these limits variables, calls, barriers and arrays are numbered in the order of the text.
pub fn small_are_formed()
    ensures { SmallAreFormed }
{}
