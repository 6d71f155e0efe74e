//! Shared 32-bit words, on which threads step through ports, with one legal history of all steps.
//!
//! [`Banks`] are the words. A thread steps on them by a [`Port`] of its own: it loads, stores and part-stores, each by one
//! or two atomic steps. A step takes no handle of the runtime, waits for nothing and takes no memory, so no lock round all
//! words can stand behind it: a lock's call wants a handle that may wait, and no such value reaches a step.
//!
//! The history is in contracts alone (`specs/Entries.antt`): each step adds one entry to it, and each answer is the word's
//! value just before its entry. A port knows a beginning of the history, in which every entry of its own number stands.
//! Once all ports are gathered in the first, it knows the history whole, and `close` gives the words that it leaves.
//!
//! - `banks`: the words, and how they are spread over banks.
//! - `port`: the steps.
//! - `crew`: ports before and after the threads run: made, gathered, renewed, closed.
//! - `bus`: what a core steps on, with `PlainBus` for words of its own and `PortBus` for a port.
//! - `rule`: what ports know, and the rule that each step on the shared words keeps (`specs/Rule.antt`).
#![tactic(auto)]

pub mod banks;
pub mod bus;
pub mod crew;
pub mod entry;
pub mod laws;
pub mod plain_bus;
pub mod port;
pub mod port_bus;
pub mod rule;

pub use banks::{Banks, bank_of};
pub use bus::Bus;
pub use crew::{PortList, close, gather, ports, renew};
pub use entry::{BusEntry, BusKind};
pub use plain_bus::PlainBus;
pub use port::Port;
pub use port_bus::PortBus;
