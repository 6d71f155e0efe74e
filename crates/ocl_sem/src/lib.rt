//! What a work-item of a kernel does: its start, its small steps, and the action that it asks for next.
//!
//! Read first `specs/Source.antt` for how the resolved program becomes tasks of the machine (`task_machine`), and
//! `specs/Items.antt` for the items of a launch. `specs/Views.antt` says what the code's active calls stand for. `items` has
//! what other crates call.
#![tactic(auto)]

pub mod forms;
pub mod items;
pub mod laws;
pub mod placed;
pub mod scopes;
pub mod statements;
pub mod unfold;

pub use items::{Item, Items};
