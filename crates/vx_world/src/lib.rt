//! The outside of a program: files that are read, a sink that is written, and a gate between cores.
//!
//! Each is a trait whose contract names what a call may do and counts the faults, so that code above it can say when an
//! answer comes from a fault. Read first `reading`, `writing` and `gates` for the traits, then `specs/Reading.antt` and
//! `specs/Writing.antt` for the words of their contracts. `mem_files` and `mem_out` are told in full and fail where they
//! are asked to; `folder_files` and `stream_out` are the real ones.
#![tactic(auto)]

pub mod calls;
pub mod folder_files;
pub mod gates;
pub mod mem_files;
pub mod mem_out;
pub mod reading;
pub mod stream_out;
pub mod writing;

pub use calls::CallList;
pub use folder_files::FolderFiles;
pub use gates::{Gate, HoldGate, NoGate};
pub use mem_files::{MemFiles, SureFiles};
pub use mem_out::MemOut;
pub use reading::{Entry, EntryList, Files, ReadFault};
pub use stream_out::StreamOut;
pub use writing::{Out, OutFault};
