//! Numbers as decimal texts, read exactly: no sign, no zero before another digit.
//!
//! Read `numbers`, whose functions have their meaning in std's `decimal`, and `specs/Numerals.antt` for what is no number and what
//! is too large.
#![tactic(auto)]

pub mod numbers;

pub use numbers::{DecimalFault, decimal_number, is_decimal, read_decimal};
