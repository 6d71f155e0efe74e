//! The instructions that the simulated machine runs, and what each of them does in one lane.
//!
//! Read first `instr` for the rows of the table, then `specs/Effects.antt` for what a row does, `specs/Operands.antt` for the
//! registers that it reads, `specs/Words.antt` for the word that spells it, and `specs/Rows.antt` for the way back.
//!
//! `specs/Warps.antt` says what a warp is and `specs/WarpSteps.antt` what one instruction makes of it, with the types of
//! `warps`. `proofs/WorkedWarps.antt` works steps out, and `warp_laws` has what every step keeps.
#![tactic(auto)]

pub mod effects;
pub mod fits;
pub mod image;
pub mod instr;
pub mod laws;
pub mod operands;
pub mod warp_laws;
pub mod warps;

pub use effects::effect;
pub use image::{Image, Site, SiteList};
pub use instr::{Instr, LaneEffect};
pub use warps::{Held, Ids, MachineTrap, Step};
