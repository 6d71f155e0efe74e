//! Laws of lowered code, each as a contract. The functions themselves do nothing.
ghost use Rattle.simt_lowering.specs.Bounds.{LeadsToPlaces, RegistersWithin, WordsWithin};
ghost use Rattle.simt_lowering.specs.InArrays.{InArrays};
ghost use Rattle.simt_lowering.specs.InBlock.{InBlock};
ghost use Rattle.simt_lowering.specs.Kept.{KernelKept};
ghost use Rattle.simt_lowering.specs.Laid.{AcceptedIsLaid};
ghost use Rattle.simt_lowering.specs.Partings.{PartsAtTests};
ghost use Rattle.simt_lowering.specs.WithoutItems.{WithoutItems};
ghost use Rattle.simt_lowering.specs.WrittenFirst.{WrittenFirst};

/// A lane alone that is laid out for a work-item asks for what the item asks for, and begins no more turns of loops until then.
pub fn kernels_are_kept()
    ensures { KernelKept }
{}

/// A warp parts, meets, keeps its lanes and lets some go on exactly at the branches, checks and loops whose test is not uniform.
pub fn warps_part_at_tests()
    ensures { PartsAtTests }
{}

/// How many words of machine code a kernel comes to.
pub fn words_are_within()
    ensures { WordsWithin }
{}

/// Registers are below their count, numbers are words, and words of the launch block are among those that it has.
pub fn registers_are_within()
    ensures { RegistersWithin }
{}

/// Each place that an operation leads to is one of the kernel's.
pub fn operations_lead_to_places()
    ensures { LeadsToPlaces }
{}

/// In an accepted launch of a kernel each item has a lane, and what stands around the lane is laid out for the item.
pub fn accepted_launches_are_laid()
    ensures { AcceptedIsLaid }
{}

/// From each place at which a lane may begin it reads no register that it has not written on its way.
pub fn registers_are_written_first()
    ensures { WrittenFirst }
{}

/// Each element that the lane of an item accesses in an accepted launch is one that an array of the kernel has.
pub fn accesses_are_in_arrays()
    ensures { InArrays }
{}

/// Each word of the launch block that a lane reads is one that the block has.
pub fn words_are_in_block()
    ensures { InBlock }
{}

/// A lane that has no item ends before the place behind the operation that leaves the lanes that have one.
pub fn lanes_without_items_end()
    ensures { WithoutItems }
{}
