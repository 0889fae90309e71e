//! A memory for one line.
ghost use Rattle.std.specs.Prelude.{◌≡◌, vec_len};

use lines::MAX_LINE_LEN;
use std::alloc::{AllocError, Global};

/// A memory for one line, as long as the longest.
#[derive(Debug, Drop, PartialEq, Eq, Hash)]
pub struct LineMemory {
    /// The bytes: a prefix and its payload, and what was there before.
    pub bytes: Vec<u8>,
    ghost sized: { vec_len bytes ≡ 65520 },
}

impl LineMemory {
    /// A memory of zeros; refuses where there is no memory for it.
    pub fn new(heap: Global) -> Result<LineMemory, AllocError> {
        Ok(LineMemory {
            bytes: vec![in heap; 0; MAX_LINE_LEN]?,
        })
    }
}
