//! Sources over lent bytes.
#![tactic(auto)]

pub mod memory;
pub mod trace;

pub use traces::Left;
