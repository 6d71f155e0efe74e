//! What a work-item of a flat kernel does, in code: its next action, by the machine that every form of program has.
//!
//! The definitions are those of `ocl_inline`: read first `specs/FlatTasks.antt` there, for how a flat kernel becomes tasks, and
//! `specs/FlatItems.antt`, for its items. `specs/Views.antt` says what the code's tasks stand for. [`FlatItems`] is what other
//! crates call.
#![tactic(auto)]

pub mod forms;
pub mod items;
pub mod statements;
pub mod unfold;

pub use items::FlatItems;
