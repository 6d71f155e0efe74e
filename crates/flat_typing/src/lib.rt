//! Functions of programs and flat kernels are typed: laws alone, each as a contract.
//!
//! Read first `specs/Typed.antt` for what the typing of a function leaves in its body, then `specs/Laws.antt` for the laws. In `proofs/`,
//! `Gains`, `Names`, `Passing`, `ExprGains` and `StmtGains` go along the typing of a body, `Params` and `Bodies` read the typing of each
//! function of a program, `Serving` says which arrays of a kernel stand for those of a call, and `Expanded` and `Kernels` go along the
//! expansion of calls. `Propositions` gives the law for programs of which no more is known than that they are of some file.
#![tactic(auto)]

pub mod laws;
