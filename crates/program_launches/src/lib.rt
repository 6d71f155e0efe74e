//! What each launch of a kernel of typed functions is, as the laws of launches ask it: each law as a contract.
//!
//! Read first `specs/Launches.antt` for the launch of a kernel and what its arrays need, then `specs/Laws.antt` for the laws.
//! What a work-item of a kernel does is said in `ocl_sem`, and what follows of a launch that is so in `launch_order`.
#![tactic(auto)]

pub mod laws;
