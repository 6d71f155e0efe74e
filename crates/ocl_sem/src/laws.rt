//! Laws of work-items, each as a contract. The functions themselves do nothing.
ghost use Rattle.ocl_sem.specs.Launched.{StaysInArrays};

/// Each load and store of an item is of an element that is there, at a multiple of the element's size, and no store is to
/// an array that is readonly or `__constant`.
pub fn items_stay_in_arrays()
    ensures { StaysInArrays }
{}
