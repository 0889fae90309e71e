//! What a capture holds, one entry after another.
ghost use Rattle.std.specs.Prelude.{◌≡◌, ◌<◌, ◌≤◌, length, IfSome};
ghost use Rattle.std.specs.Option.{option_map};
ghost use Rattle.entries.specs.Entries.{entered, entry_of, size, Taken};
ghost use Rattle.std.specs.Iterator.{at_most};

use lines::decode::{DecodeFault, Stream, streaming};
use lines::{PacketLineRef, U16_HEX_BYTES};

/// What stands at one offset of a capture.
#[derive(Clone, Copy, Debug, PartialEq, Eq, Hash)]
pub enum Entry<'a> {
    /// A packet line.
    Line {
        /// The line.
        line: PacketLineRef<'a>,
        /// How many bytes it takes, with its prefix.
        length: usize,
    },
    /// Four bytes that begin no line.
    ///
    /// They alone are passed over, as a reader of packet lines does, so that the lines behind them are still found.
    Refused {
        /// The four bytes.
        prefix: &'a [u8],
        /// Why they begin no line.
        fault: DecodeFault,
    },
    /// The first bytes of a line, in which the capture ends.
    Cut {
        /// How many bytes of the line are there.
        length: usize,
        /// How many are missing.
        missing: usize,
    },
}

impl Entry<'_> {
    /// How many bytes of the capture it takes.
    pub fn length(&self) -> usize
        ensures { result ≡ size (entry_of self.now) }
    {
        match self {
            Entry::Line { length, .. } | Entry::Cut { length, .. } => *length,
            Entry::Refused { .. } => U16_HEX_BYTES,
        }
    }
}

/// The entry that `bytes` begin with: none of no bytes, and of a part of a line only where `at_end` says that no more bytes come.
pub fn next_entry(bytes: &[u8], at_end: bool) -> Option<Entry<'_>>
    ensures is { option_map entry_of result ≡ entered at_end bytes.now }
    ensures within { IfSome result (λ e. (0 < size (entry_of e)) × (size (entry_of e) ≤ length bytes.now)) }
{
    if bytes.is_empty() {
        return None;
    }
    match streaming(bytes) {
        Ok(
            Stream::Complete {
                line,
                bytes_consumed: length,
            },
        ) => Some(Entry::Line { line, length }),
        Ok(
            Stream::Incomplete {
                bytes_needed: missing,
            },
        ) => at_end.then_some(Entry::Cut {
            length: bytes.len(),
            missing,
        }),
        Err(fault) => Some(Entry::Refused {
            prefix: &bytes[..U16_HEX_BYTES],
            fault,
        }),
    }
}

/// The entries that bytes begin with, one after another.
#[derive(Clone, Debug, Drop, PartialEq, Eq, Hash)]
pub struct Entries<'a> {
    rest: &'a [u8],
    at_end: bool,
}

impl<'a> Entries<'a> {
    /// The entries of `bytes`; `at_end` says that no more bytes come.
    pub fn new(bytes: &'a [u8], at_end: bool) -> Entries<'a>
        ensures rest { result.rest.now ≡ bytes.now }
        ensures at_end { result.at_end ≡ at_end }
    {
        Entries {
            rest: bytes,
            at_end,
        }
    }

    /// The bytes behind the entries that were taken.
    pub fn rest(&self) -> &'a [u8]
        ensures { result.now ≡ self.now.rest.now }
    {
        let Entries { rest, .. } = self;
        *rest
    }
}

impl<'a> Iterator for Entries<'a> {
    type Item = Entry<'a>;

    ghost next_gives = { λ s e t. Taken s.at_end s.rest.now e t.rest.now × (t.at_end ≡ s.at_end) };

    ghost remaining = { λ s. at_most (length s.rest.now) };

    fn next(&mut self) -> Option<Entry<'a>> {
        let entry = next_entry(self.rest, self.at_end)?;
        self.rest = &self.rest[entry.length()..];
        Some(entry)
    }
}
