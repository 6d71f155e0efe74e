//! Tests of what a run takes and gives: the check of a launch, and buffers as bytes and as text.
//!
//! What `launch_loader` and `buf_text` prove is said in their own contracts. These tests hold what no contract says: that the
//! definitions agree with values worked by hand, and that a call comes to an end with its answer.
//!
//! - `launches` asks for the check of a launch, and `arguments`, `ranges` and `local_arrays` test each of its refusals at both
//!   sides of its limit; `specs/Launches.antt` has the launches that can be asked for.
//! - `buffers` tests `buf_text`.
#![tactic(auto)]

#[cfg(test)]
mod arguments;
#[cfg(test)]
mod buffers;
#[cfg(test)]
mod launches;
#[cfg(test)]
mod local_arrays;
#[cfg(test)]
mod ranges;
