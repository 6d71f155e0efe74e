//! Tests of what all crates speak of: words and bytes, files and sinks, decimal numbers, and the turns of work-items.
//!
//! What each tested crate proves is said in its own contracts. These tests hold what no contract says: that the definitions
//! agree with values from outside, and that a call comes to an end with its answer. Read first `worlds`.
//!
//! - `worlds` tests `item_acts`, `outside` `vx_world`, `decimals` `decimal_text`, and `numbers` `vx_base`.
#![tactic(auto)]

#[cfg(test)]
mod decimals;
#[cfg(test)]
mod numbers;
#[cfg(test)]
mod outside;
#[cfg(test)]
mod worlds;
