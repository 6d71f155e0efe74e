//! Tests of cores on threads, over public calls alone.
#![tactic(auto)]

#[cfg(test)]
mod launches;
