//! A capture taken from a link, unit by unit.
use lines::{Refusal, Refuses, U16_HEX_BYTES};
use links::memory::LineMemory;
use links::source::Source;
use links::unit::{LineKind, read_line_inner};
use std::alloc::{AllocError, Global};

/// What lines came to.
#[derive(Clone, Copy, Debug, Default, PartialEq, Eq, Hash)]
pub struct Taken {
    /// How many there were.
    pub lines: u64,
    /// How many bytes they have, with their prefixes.
    pub bytes: u64,
    /// A sum over their payloads, which changes with each byte and its place.
    pub sum: u64,
}

/// What the units of a capture came to.
#[derive(Clone, Copy, Debug, PartialEq, Eq, Hash)]
pub struct Units {
    /// The lines.
    pub taken: Taken,
    /// The refusal behind them.
    pub refusal: Refusal,
}

/// Takes units from `source` up to the first refusal.
#[tactic(auto, using(crate::proofs::Shorter::shorter))]
pub fn units_of<S: Source>(source: &mut S, memory: &mut LineMemory) -> Units {
    let mut taken = Taken::default();
    let refusal = 'units: loop {
        match read_line_inner(source, memory) {
            Ok(kind) => taken.add(kind, memory.bytes.as_slice()),
            Err(fault) => break fault.refusal(),
        }
    };
    Units { taken, refusal }
}

impl Taken {
    /// Adds the line of that kind in front of `memory`.
    fn add(&mut self, kind: LineKind, memory: &[u8]) {
        let length = match kind {
            LineKind::Marker(_) => 0,
            LineKind::Data(length) => length,
        };
        self.lines = self.lines.saturating_add(1);
        self.bytes = self
            .bytes
            .saturating_add(U16_HEX_BYTES as u64)
            .saturating_add(length as u64);
        // A slice, since `skip` and `take` test each byte.
        let behind = &memory[U16_HEX_BYTES.min(memory.len())..];
        self.sum = behind[..length.min(behind.len())].iter().fold(
            self.sum,
            |sum, byte| sum.wrapping_mul(31).wrapping_add(u64::from(*byte)),
        );
    }
}

/// The steps of a trace that gives `size` bytes in pieces of `piece` bytes.
pub fn in_pieces(heap: Global, size: usize, piece: u8) -> Result<Vec<u8>, AllocError> {
    // Pieces of no bytes would give nothing, however many they are.
    [0, piece].repeat(heap, size.div_ceil(usize::from(piece.max(1))))
}

/// The steps of a trace that gives `size` bytes one by one, with an interruption before each and behind the last.
pub fn interrupted(heap: Global, size: usize) -> Result<Vec<u8>, AllocError> {
    let mut steps = [1, 0, 0, 1].repeat(heap, size)?;
    steps.extend_from_slice(&[1, 0])?;
    Ok(steps)
}
