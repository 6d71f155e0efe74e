//! What the cores of a machine do to the words that they share, through caches of their own that are not kept alike: the deeds of
//! each core with their entries on the bus, one legal history of all, and which byte a read may answer. Definitions and laws, for
//! every number of sets, ways and waiting changes; nothing of it runs.
//!
//! Read first `laws`, whose functions carry the laws: of bytes of one core, and of what stays below 2^32. Then `specs/Deeds.antt` for what
//! a core does, `specs/BusRuns.antt` for how the deeds of cores and the history fit together, and `specs/OwnBytes.antt` and
//! `specs/FittingWords.antt` for what the laws say.
#![tactic(auto)]

pub mod laws;
