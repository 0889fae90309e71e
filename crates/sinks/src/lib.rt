//! Sinks over lent memory.
#![tactic(auto)]

pub mod memory;
pub mod send;
pub mod trace;

pub use traces::Left;
