//! A source that gives lent bytes, and nothing else.
ghost use Rattle.std.specs.Prelude.{◌≡◌, ◌<◌, ◌^◌, map};
ghost use Rattle.links.specs.Items.{byte, effect};
ghost use Rattle.traces.specs.Counts.{tally};
ghost use Rattle.sources.specs.Lists.{memory_list};

use links::source::Source;
use links::{LinkFault, Moved};
use traces::Left;

/// A source of lent bytes.
#[derive(Debug, Drop, PartialEq, Eq, Hash)]
pub struct Memory<'a> {
    bytes: &'a [u8],
}

impl<'a> Memory<'a> {
    /// A source whose list is exactly `bytes`.
    pub fn new(bytes: &'a [u8]) -> Memory<'a>
        ensures { memory_list result ≡ map byte bytes.now }
    {
        Memory { bytes }
    }

    /// Counts what is still to come.
    pub fn left(&self) -> Left
        ensures is { result ≡ tally effect (memory_list self.now) }
        ensures below { result.bytes < 2 ^ 63 }
    {
        Left {
            bytes: self.bytes.len(),
            ..Left::default()
        }
    }
}

impl Source for Memory<'_> {
    ghost left = { memory_list };

    fn read(&mut self, memory: &mut [u8]) -> Result<Moved, LinkFault> {
        let n = self.bytes.len().min(memory.len());
        let (front, rest) = self.bytes.split_at(n);
        memory[..n].copy_from_slice(front);
        self.bytes = rest;
        Ok(Moved::Bytes(n))
    }
}
