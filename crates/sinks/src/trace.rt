//! A sink over lent memory that has its places in lent steps, with interruptions and faults between.
ghost use Rattle.std.specs.Prelude.{◌≡◌, ◌-◌, length};
ghost use Rattle.links.specs.Slots.{slot_effect};
ghost use Rattle.traces.specs.Counts.{tally};
ghost use Rattle.sinks.specs.Stands.{trace_stand, fresh_trace};

use crate::memory::put_some;
use links::sink::Sink;
use links::{LinkFault, Moved};
use traces::{Left, Step};

/// A sink over lent memory, in lent steps of two bytes, a kind and an amount.
///
/// Kind 0 has that many places, or those left; kind 2 is the fault of that number; any other kind is an interruption.
/// An incomplete last step is void, and memory behind the last step is never filled.
#[derive(Debug, Drop)]
pub struct Trace<'a, 'b> {
    memory: &'a mut [u8],
    filled: usize,
    // How many places the step that was begun last still has, if the memory has them.
    piece: usize,
    steps: &'b [[u8; 2]],
}

impl<'a, 'b> Trace<'a, 'b> {
    /// A sink whose list is what `steps` have of the bytes of `memory`.
    pub fn new(memory: &'a mut [u8], steps: &'b [u8]) -> Trace<'a, 'b>
        ensures { trace_stand result ≡ fresh_trace memory.entry.ghost_name memory.old steps.now }
    {
        let (steps, _) = steps.as_chunks::<2>();
        Trace {
            memory,
            filled: 0,
            piece: 0,
            steps,
        }
    }

    /// The bytes accepted.
    pub fn accepted(&self) -> &[u8]
        ensures { result.now ≡ (trace_stand self.now).accepted }
    {
        &self.memory[..self.filled.min(self.memory.len())]
    }

    /// Counts what is still to come.
    pub fn left(&self) -> Left
        ensures { result ≡ tally slot_effect (trace_stand self.now).room }
    {
        let free = self.free();
        let piece = self.piece.min(free);
        let behind = Left::of_steps(free - piece, self.steps);
        Left {
            bytes: piece + behind.bytes,
            ..behind
        }
    }

    /// How many bytes of the memory are not filled.
    fn free(&self) -> usize
        ensures { result ≡ length self.now.memory.now - self.now.filled }
    {
        self.memory.len().saturating_sub(self.filled)
    }
}

impl Sink for Trace<'_, '_> {
    ghost stand = { trace_stand };

    fn write(&mut self, bytes: &[u8]) -> Result<Moved, LinkFault> {
        if bytes.is_empty() {
            return Ok(Moved::Bytes(0));
        }
        // Kept: a source's trace has this loop too, but for what a step of bytes does to it.
        'steps: while self.piece.min(self.free()) == 0 {
            let [step, rest @ ..] = self.steps else {
                return Ok(Moved::Bytes(0));
            };
            self.steps = rest;
            match Step::from(*step) {
                Step::Bytes(n) => self.piece = n,
                Step::Interruption => return Ok(Moved::Interrupted),
                Step::Fault(number) => return Err(LinkFault { number }),
            }
        }
        let n = put_some(bytes, self.filled, self.piece, self.memory);
        self.filled += n;
        self.piece -= n;
        Ok(Moved::Bytes(n))
    }
}
