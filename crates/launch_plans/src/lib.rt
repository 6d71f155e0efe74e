//! What a launch is asked to be, and the machine that it runs on.
//!
//! Read `shapes` for the machine, with its limits in `specs/Shapes.antt`, and `plans` for a launch.
#![tactic(auto)]

pub mod plans;
pub mod shapes;

pub use plans::{Arg, ArgList, Plan};
pub use shapes::{Evict, Sched, Shape, usual_shape};
