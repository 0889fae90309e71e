//! What a capture holds.
ghost use Rattle.std.specs.Prelude.{◌≡◌, ◌+◌, ◌^◌, ◌<◌, drop};
ghost use Rattle.lines.specs.Meaning.{line_of};
ghost use Rattle.captures.specs.Tallies.{Decodes, Ends, total, with_line};

use lines::decode::{DecodeFault, Stream, streaming};
use lines::{PacketLineRef, Refuses};
use std::fmt;

/// How many lines of each kind there are.
#[derive(Clone, Copy, Debug, Default, PartialEq, Eq, Hash)]
pub struct Lines {
    /// Lines with a payload.
    pub payloads: usize,
    /// The length of the longest line, with its prefix.
    pub longest: usize,
    /// Flush lines.
    pub flushes: usize,
    /// Delimiter lines.
    pub delimiters: usize,
    /// Response end lines.
    pub response_ends: usize,
}

/// The lines of a capture.
#[derive(Clone, Copy, Debug, PartialEq, Eq, Hash)]
pub struct Tally {
    /// How many lines there are.
    pub lines: Lines,
    /// How many bytes they take.
    pub decoded: usize,
    /// Whether they go to its end, or why a line does not.
    pub end: Result<(), DecodeFault>,
}

/// Decodes a capture as far as it holds lines.
#[tactic(auto, using(crate::proofs::Totals::begun, crate::proofs::Totals::walks))]
pub fn tally_of(bytes: &[u8]) -> Tally
    ensures decodes { Decodes bytes.now result.decoded result.lines }
    ensures ends { Ends (drop result.decoded bytes.now) result.end }
{
    let mut lines = Lines::default();
    let mut rest = bytes;
    // Kept: `entries::Entries` goes on behind a refused prefix, and this ends there.
    let end = 'lines: loop {
        if rest.is_empty() {
            break Ok(());
        }
        match streaming(rest) {
            Ok(
                Stream::Complete {
                    line,
                    bytes_consumed,
                },
            ) => {
                lines = lines.counted(&line, bytes_consumed);
                rest = &rest[bytes_consumed..];
            }
            Ok(Stream::Incomplete { bytes_needed }) => break Err(DecodeFault::Missing(
                bytes_needed,
            )),
            Err(fault) => break Err(fault),
        }
    };
    Tally {
        lines,
        decoded: bytes.len() - rest.len(),
        end,
    }
}

impl Lines {
    /// These lines, and one more.
    fn counted(mut self, line: &PacketLineRef<'_>, length: usize) -> Lines
        requires { total self + 1 < 2 ^ 64 }
        ensures { result ≡ with_line self (line_of line.now) length }
    {
        self.longest = self.longest.max(length);
        match line {
            PacketLineRef::Data(_) => self.payloads += 1,
            PacketLineRef::Flush => self.flushes += 1,
            PacketLineRef::Delimiter => self.delimiters += 1,
            PacketLineRef::ResponseEnd => self.response_ends += 1,
        }
        self
    }
}

impl fmt::Display for Tally {
    fn fmt<W: fmt::Write>(&self, f: &mut fmt::Formatter<W>) -> fmt::Result {
        let Lines {
            payloads,
            longest,
            flushes,
            delimiters,
            response_ends,
        } = self.lines;
        write!(
            f,
            "{payloads:>5}  {longest:>7}  {flushes:>5}  {delimiters:>5}  {response_ends:>12}  "
        )?;
        let decoded = self.decoded;
        match self.end {
            Ok(()) => f.write_str("to its end"),
            Err(DecodeFault::Missing(missing)) => write!(
                f,
                "{decoded} bytes, and a line that lacks {missing}"
            ),
            Err(fault) => { write!(f, "{decoded} bytes, then refusal {}", fault.number()) }
        }
    }
}
