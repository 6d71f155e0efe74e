//! A warp over code for its lanes: what it does with them together.
//!
//! Read `specs/Warps.antt` for the step of a warp, and `specs/Runs.antt` for runs and what each lane takes part in.
//! `proofs/Worked.antt` works a branch with a loop out.
#![tactic(auto)]
