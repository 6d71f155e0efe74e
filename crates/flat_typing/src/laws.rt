//! Laws of typed functions and of their flat kernels. The functions themselves do nothing.
ghost use Rattle.flat_typing.specs.Laws.{FlatKernelsAreTyped, FunctionsAreTyped, VariablesAreFew};

/// In a function within the limits of a kernel each load and store is by the type of its array's elements, each store is to an array that
/// accepts it, each call is of a helper with arguments of its parameters' kinds, and each built-in function has its arguments.
pub fn functions_are_typed()
    ensures { FunctionsAreTyped }
{}

/// Such a function has no more variables, with its calls expanded, than nodes and scalar parameters.
pub fn variables_are_few()
    ensures { VariablesAreFew }
{}

/// A kernel with its calls expanded is typed in the same way, by its own arrays, and its variables are numbered below their count.
pub fn flat_kernels_are_typed()
    ensures { FlatKernelsAreTyped }
{}
