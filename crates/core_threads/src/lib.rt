//! The cores of a machine on threads of their own: each claims groups of a launch and runs them on words that all share, and
//! what all did is one run of the machine.
//!
//! Read first `specs/MachineRuns.antt` for what a run of the machine is, with `specs/GroupRuns.antt` for the groups of one
//! core, and [`run_groups`] for the launch. `proofs/Worked.antt` is a worked run.
//!
//! - `jobs`: the groups of a launch, and the job that each is for a core.
//! - `machine`: how many cores there are, and what each of them is.
//! - `work`: what one core does with what it owns.
//! - `seats`: cores made ready for a launch.
//! - `side_by_side`: all cores run, each on a thread of its own.
//! - `room` and `record`: what cores give back.
//! - `launch`: a whole launch.
#![tactic(auto)]

pub mod jobs;
pub mod launch;
pub mod machine;
pub mod record;
pub mod room;
pub mod seats;
pub mod side_by_side;
pub mod work;

pub use jobs::Jobs;
pub use launch::{Launched, run_cores, run_groups};
pub use machine::Machine;
pub use record::{CoreRecord, RecordList};
pub use room::Room;
pub use seats::{Policies, seat_all};
pub use side_by_side::run_all;
pub use work::CoreWork;
