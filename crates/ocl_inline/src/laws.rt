//! Laws of flat kernels, each as a contract. The functions themselves do nothing.
ghost use Rattle.ocl_inline.specs.FlatLaws.{HaveMeasures, HaveSites, HaveVariables, OfFlatKernels};
ghost use Rattle.ocl_inline.specs.Laws.{AllExpanded, AsksAlike, SpendsAlike, StepsAlike};

/// Each step of the flat kernel is the source's, where the bodies at its calls are the expanded ones.
pub fn flat_steps_are_the_sources()
    ensures steps { StepsAlike }
    ensures asks { AsksAlike }
    ensures spends { SpendsAlike }
{}

/// Where no function reaches a call of itself, as many levels of calls as there are functions expand all of them.
pub fn calls_are_expanded()
    ensures { AllExpanded }
{}

/// The barriers of a flat kernel have different numbers, and the numbers of its barriers and variables are below their counts.
pub fn flat_numbers_are_counted()
    ensures sites { OfFlatKernels HaveSites }
    ensures variables { OfFlatKernels HaveVariables }
{}

/// A flat kernel is as large as the measures of its function say.
pub fn flat_measures_are_kept()
    ensures { OfFlatKernels HaveMeasures }
{}
