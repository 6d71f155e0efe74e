//! Tests of the machine: its words, their two texts, warps, the parts of a core, and what cores share.
//!
//! What each tested crate proves is said in its own contracts. These tests hold what no contract says: that the definitions
//! agree with words and texts from outside (LLVM's assembler, the reference implementation of PCG32, examples worked by hand),
//! and that a call comes to an end with its answer. Read first `instructions` and `warp_steps`; there is one file for each
//! tested crate.
//!
//! - `instructions` tests `vx_isa`, `words` `rv_encode`, `hexadecimal_lines` `asm_text`, `assembler` `vx_asm`, and
//!   `disassembler` `vx_disasm`.
//! - `warp_steps` tests `warp_state` (on `lane_bytes`, a memory for lanes), and `divergence_stack` `ipdom_stack`.
//! - `barriers` tests `barrier_table`, `scratch_bytes` `scratchpad`, `picks` `warp_scheduler`, `cache_lines` `l1_cache`, and
//!   `groups` `vx_core`.
//! - `shared_words` tests `memory_banks`, and `tickets` `group_dispenser`, both with two threads.
#![tactic(auto)]

#[cfg(test)]
mod assembler;
#[cfg(test)]
mod barriers;
#[cfg(test)]
mod cache_lines;
#[cfg(test)]
mod disassembler;
#[cfg(test)]
mod divergence_stack;
#[cfg(test)]
mod groups;
#[cfg(test)]
mod hexadecimal_lines;
#[cfg(test)]
mod instructions;
#[cfg(test)]
mod lane_bytes;
#[cfg(test)]
mod picks;
#[cfg(test)]
mod scratch_bytes;
#[cfg(test)]
mod shared_words;
#[cfg(test)]
mod tickets;
#[cfg(test)]
mod warp_steps;
#[cfg(test)]
mod words;
