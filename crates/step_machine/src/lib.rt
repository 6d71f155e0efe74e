//! Machines of small steps that ask for actions, apart from what they run: how they are run, what their steps cost, and when two of
//! them ask for the same.
//!
//! A machine is a small step, `Step` of `item_acts`, and its next action is `asked`. [`SmallSteps`] is what code gives that makes such
//! steps, and [`run`] says what it asks for. [`Stack`] and [`Turns`] are what such machines keep.
//!
//! Read first `specs/Steps.antt` for what code finds in a step and `specs/Turns.antt` for numbers of turns; then `specs/Costs.antt` for
//! what the first steps cost, `specs/Alike.antt` for what a translation of programs keeps, and `specs/Sims.antt` for the relation by
//! which it is shown: how a translated program goes along with its source, step by step. Laws are in `proofs/`, for the proofs of the
//! layers above.
#![tactic(auto)]

pub mod runs;
pub mod stack;
pub mod steps;
pub mod turns;

pub use runs::run;
pub use stack::Stack;
pub use steps::{Found, SmallSteps};
pub use turns::{Turns, enter_turns, leave_turns, raise};
