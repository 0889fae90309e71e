//! What gives bytes and what takes them, by their meaning, and one unit taken from what gives.
#![tactic(auto)]

pub mod memory;
pub mod sink;
pub mod source;
pub mod unit;

pub use lines::{Refusal, Refuses};
use std::error::Error;
use std::fmt;

/// The number of a fault of a source or of a sink.
pub type FaultNumber = u8;

/// How many bytes a call on a source or on a sink moved.
// Kept: as an Option, `None` would read as the end of what is to come; as an error, `?` would carry an interruption upward.
#[derive(Clone, Copy, Debug, PartialEq, Eq, Hash)]
pub enum Moved {
    /// So many bytes; none only where none were asked for or handed in, or none are to come.
    Bytes(usize),
    /// None, for an interruption.
    Interrupted,
}

/// A fault of a source or of a sink.
#[derive(Clone, Copy, Debug, PartialEq, Eq, Hash)]
pub struct LinkFault {
    /// Its number.
    pub number: FaultNumber,
}

impl fmt::Display for LinkFault {
    fn fmt<W: fmt::Write>(&self, f: &mut fmt::Formatter<W>) -> fmt::Result {
        write!(f, "a fault with the number {}", self.number)
    }
}

impl Error for LinkFault {}
