//! A sink with a place for each byte of a lent memory.
ghost use Rattle.std.specs.Prelude.{◌≡◌, ◌+◌, ◌-◌, ◌≤◌, min, length, take};
ghost use Rattle.links.specs.Slots.{slot_effect};
ghost use Rattle.traces.specs.Counts.{tally};
ghost use Rattle.sinks.specs.Stands.{memory_stand, fresh, put};

use links::sink::Sink;
use links::{LinkFault, Moved};
use traces::Left;

/// A sink over lent memory, which it fills from the front.
// Kept: `memory` and `filled` stand here and in a trace's sink, and `put_some` takes both. In one struct inside
// the sinks they would be plainer, but then nothing is proved of the lent memory when a sink is dropped.
#[derive(Debug, Drop)]
pub struct Memory<'a> {
    memory: &'a mut [u8],
    filled: usize,
}

impl<'a> Memory<'a> {
    /// A sink with a place for each byte of `memory`.
    pub fn new(memory: &'a mut [u8]) -> Memory<'a>
        ensures { memory_stand result ≡ fresh memory.entry.ghost_name memory.old }
    {
        Memory { memory, filled: 0 }
    }

    /// The bytes accepted.
    pub fn accepted(&self) -> &[u8]
        ensures { result.now ≡ (memory_stand self.now).accepted }
    {
        &self.memory[..self.filled.min(self.memory.len())]
    }

    /// Counts what is still to come.
    pub fn left(&self) -> Left
        ensures { result ≡ tally slot_effect (memory_stand self.now).room }
    {
        Left {
            bytes: self.memory.len().saturating_sub(self.filled),
            ..Left::default()
        }
    }
}

impl Sink for Memory<'_> {
    ghost stand = { memory_stand };

    fn write(&mut self, bytes: &[u8]) -> Result<Moved, LinkFault> {
        let n = put_some(bytes, self.filled, bytes.len(), self.memory);
        self.filled += n;
        Ok(Moved::Bytes(n))
    }
}

/// Copies what fits from the front of `bytes`, and no more than `most`, to the place `at` in `memory`.
pub(crate) fn put_some(bytes: &[u8], at: usize, most: usize, memory: &mut [u8]) -> usize
    ensures count { result ≡ min (min (length bytes.now) most) (length memory.old - at) }
    ensures put { memory.new ≡ put memory.old at (take result bytes.now) }
{
    let n = bytes.len().min(most).min(memory.len().saturating_sub(at));
    if n > 0 {
        put_at(&bytes[0..n], at, memory);
    }
    n
}

/// Copies `bytes` to the place `at` in `memory`.
fn put_at(bytes: &[u8], at: usize, memory: &mut [u8])
    requires { at + length bytes.now ≤ length memory.old }
    ensures { memory.new ≡ put memory.old at bytes.now }
{
    let end = at + bytes.len();
    memory[at..end].copy_from_slice(bytes);
}
