//! What a work-item of a kernel knows of its launch, apart from what the kernel does: its numbers, the arrays that the
//! kernel's parameters and declarations stand for, and the values of its scalar parameters.
//!
//! A kernel is here what every form of it has: its parameters and the `__local` arrays that it declares. Read first
//! `specs/Settings.antt`. `variables` holds what a work-item of any form keeps.
#![tactic(auto)]

pub mod arrays;
pub mod params;
pub mod settings;
pub mod starts;
pub mod variables;

pub use arrays::{ItemArray, low_bytes, size_of_elem};
pub use params::copied_params;
pub use settings::Setting;
pub use starts::bound_values;
pub use variables::Variables;
