//! A source that gives lent bytes in lent steps, with interruptions and faults between.
ghost use Rattle.std.specs.Prelude.{◌≡◌};
ghost use Rattle.links.specs.Items.{effect};
ghost use Rattle.traces.specs.Counts.{tally};
ghost use Rattle.sources.specs.Lists.{steps_list, trace_list};

use crate::memory::Memory;
use links::source::Source;
use links::{LinkFault, Moved};
use traces::{Left, Step};

/// A source of lent bytes, in lent steps of two bytes, a kind and an amount.
///
/// Kind 0 gives that many bytes, or those left; kind 2 is the fault of that number; any other kind is an interruption.
/// An incomplete last step is void, and bytes behind the last step never come.
#[derive(Debug, Drop, PartialEq, Eq, Hash)]
pub struct Trace<'a, 'b> {
    // What is still to come of the step that was begun last; `bytes` is for the steps behind it.
    piece: Memory<'a>,
    bytes: &'a [u8],
    steps: &'b [[u8; 2]],
}

impl<'a, 'b> Trace<'a, 'b> {
    /// A source whose list is what `steps` give of `bytes`.
    pub fn new(bytes: &'a [u8], steps: &'b [u8]) -> Trace<'a, 'b>
        ensures { trace_list result ≡ steps_list bytes.now steps.now }
    {
        let (steps, _) = steps.as_chunks::<2>();
        Trace {
            piece: Memory::new(&[]),
            bytes,
            steps,
        }
    }

    /// Counts what is still to come.
    pub fn left(&self) -> Left
        ensures { result ≡ tally effect (trace_list self.now) }
    {
        let behind = Left::of_steps(self.bytes.len(), self.steps);
        Left {
            bytes: self.piece.left().bytes + behind.bytes,
            ..behind
        }
    }
}

impl Source for Trace<'_, '_> {
    ghost left = { trace_list };

    fn read(&mut self, memory: &mut [u8]) -> Result<Moved, LinkFault> {
        if memory.is_empty() {
            return Ok(Moved::Bytes(0));
        }
        'steps: while self.piece.left().bytes == 0 {
            let [step, rest @ ..] = self.steps else {
                return Ok(Moved::Bytes(0));
            };
            self.steps = rest;
            match Step::from(*step) {
                Step::Bytes(n) => {
                    let (piece, others) = self.bytes.split_at(n.min(self.bytes.len()));
                    self.piece = Memory::new(piece);
                    self.bytes = others;
                }
                Step::Interruption => return Ok(Moved::Interrupted),
                Step::Fault(number) => return Err(LinkFault { number }),
            }
        }
        self.piece.read(memory)
    }
}
