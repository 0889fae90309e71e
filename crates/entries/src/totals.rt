//! The count of what a capture holds.
ghost use Rattle.std.specs.Prelude.{◌≡◌, nat_le};
ghost use Rattle.entries.specs.Entries.{entry_of};
ghost use Rattle.entries.specs.Counts.{Counted, Left, plus};

use crate::entry::Entry;
use lines::PacketLineRef;

/// Behind so many refused prefixes in a row the rest of a capture is taken for something else, as a raw pack.
pub const MOST_REFUSALS: u64 = 8;

/// What a capture holds, as far as it was counted.
#[derive(Clone, Copy, Debug, Default, PartialEq, Eq, Hash)]
pub struct Totals {
    /// Lines with a payload.
    pub data_lines: u64,
    /// Flush lines.
    pub flushes: u64,
    /// Delimiter lines.
    pub delimiters: u64,
    /// Response end lines.
    pub response_ends: u64,
    /// Bytes of payload.
    pub payload_bytes: u64,
    /// Refused prefixes.
    pub refusals: u64,
    /// Bytes that the last line lacks.
    pub missing_bytes: u64,
    /// All bytes.
    pub bytes: u64,
    /// Refused prefixes with no line behind them yet.
    pub in_a_row: u64,
    /// Bytes behind too many refused prefixes.
    pub undecoded: u64,
}

impl Totals {
    /// Counts an entry.
    pub fn add(&mut self, entry: &Entry<'_>)
        ensures { Counted self.old (entry_of entry.now) self.new }
    {
        count(&mut self.bytes, entry.length());
        match entry {
            Entry::Line { line, .. } => {
                self.in_a_row = 0;
                match line {
                    PacketLineRef::Data(payload) => {
                        count(&mut self.data_lines, 1);
                        count(&mut self.payload_bytes, payload.len());
                    }
                    PacketLineRef::Flush => count(&mut self.flushes, 1),
                    PacketLineRef::Delimiter => count(&mut self.delimiters, 1),
                    PacketLineRef::ResponseEnd => count(&mut self.response_ends, 1),
                }
            }
            Entry::Refused { .. } => {
                count(&mut self.in_a_row, 1);
                count(&mut self.refusals, 1);
            }
            Entry::Cut { missing, .. } => {
                self.in_a_row = 0;
                count(&mut self.missing_bytes, *missing);
            }
        }
    }

    /// Whether too many prefixes in a row were refused to go on.
    pub fn gives_up(&self) -> bool
        ensures { result ≡ nat_le 8 self.now.in_a_row }
    {
        self.in_a_row >= MOST_REFUSALS
    }

    /// Counts bytes that are not decoded.
    pub fn leave(&mut self, bytes: usize)
        ensures { Left self.old bytes self.new }
    {
        count(&mut self.bytes, bytes);
        count(&mut self.undecoded, bytes);
    }
}

/// Adds to a number, which stays at the largest of 64 bits.
fn count(total: &mut u64, more: usize)
    ensures { total.new ≡ plus total.old more }
{
    // Kept: `u64` has no `From<usize>`.
    *total = total.saturating_add(more as u64);
}
