//! Code for the lanes of a warp, on as many registers as are wanted, and what a lane of it does alone.
//!
//! Read `specs/Code.antt` for the operations, `specs/Machine.antt` for what a lane does, and `specs/Words.antt` for how many words of
//! machine code an operation comes to.
#![tactic(auto)]

pub mod items;
pub mod lanes;
pub mod lists;
pub mod ops;

pub use items::vcode_next;
pub use lanes::{Lane, Surroundings};
pub use lists::{put, put_compute, put_copy, put_learn, put_word};
pub use ops::{Csr, VCode, VOp};
