//! What the program of each file has, each law as a contract.
//!
//! Read first `specs/Formed.antt` for what stands in a body and what a function's numbers are, then `specs/Laws.antt` for the laws.
//! In `proofs/`, `Pieces`, `ExprMoves`, `StmtMoves` and `Bodies` go along the typing of a body, `Counting` and `Settling` count the
//! levels of calls, `Weights` counts the nodes, and `Limits` and `Forming` put these together.
#![tactic(auto)]

pub mod laws;
