//! Laws of kernels that are found, as contracts. The functions themselves do nothing.
ghost use Rattle.structured.specs.Laws.{FoundAreKernels};

/// What a program finds by its name is a kernel.
pub fn found_are_kernels()
    ensures { FoundAreKernels }
{}
