//! The top call `vx`: from words, files and a sink to a report, with everything that the program does in between.
//!
//! Read first `specs/Meets.antt` for what the call promises, then `call` for the call itself, and `answer` for the
//! stages of its answers. The words are read by `vx_words`, the kernels that run are those of `first_kernels`, and
//! images are made by `kernel_images`.
#![tactic(auto)]

pub mod answer;
pub mod building;
pub mod call;
pub mod deliver;
pub mod launch;
pub mod layout;
pub mod lines;
pub mod loading;
pub mod output;
pub mod programs;
pub mod reading;
pub mod report;
pub mod stages;
pub mod texts;

pub use call::vx;
pub use report::{Activity, Cause, ImageList, Report};
