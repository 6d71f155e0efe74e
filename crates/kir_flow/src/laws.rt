//! Laws of flags in place of jumps, each as a contract. The functions themselves do nothing.
ghost use Rattle.kir_flow.specs.Laws.{FlagsKeep, ItemsLearnWords};

/// A kernel with flags in place of jumps has no jump left and asks for what the kernel with jumps asks for; its barriers, checks, branches, loops, variables and words
/// are as those were, but for the flags.
pub fn flags_keep()
    ensures { FlagsKeep }
{}

/// What the items of a launch learn of it are words, where its sizes and the numbers of its items are.
pub fn items_learn_words()
    ensures { ItemsLearnWords }
{}
