//! The compiler of kernel files. It has its front: from the bytes of a file to its resolved program, or to the first
//! fault of the file ([`front`]).
//!
//! Read first `specs/Fronts.antt` for what the front gives, then `sources`. `faults` has the faults of all source files, with
//! their texts. `proofs/OneFront.antt` shows that a file comes to one thing.
#![tactic(auto)]

pub mod faults;
pub mod sources;

pub use faults::{SourceFault, SourceKind};
pub use sources::front;
