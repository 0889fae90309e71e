//! An entry in print.
use crate::payload::{Excerpt, Quoted};
use entries::entry::Entry;
use lines::decode::DecodeFault;
use lines::{BandError, BandRef, PacketLineRef, Refuses};
use std::fmt;

/// The titles of the columns.
#[derive(Clone, Copy, Debug, PartialEq, Eq, Hash)]
pub struct Titles {
    /// Whether there is a column for bands.
    pub bands: bool,
}

impl fmt::Display for Titles {
    fn fmt<W: fmt::Write>(&self, f: &mut fmt::Formatter<W>) -> fmt::Result {
        f.write_str("  offset  length  kind          ")?;
        if self.bands {
            f.write_str("band        ")?;
        }
        f.write_str("payload")
    }
}

/// One entry of a capture, with its place.
#[derive(Clone, Copy, Debug, PartialEq, Eq, Hash)]
pub struct Row<'a> {
    /// Where it begins.
    pub offset: u64,
    /// What it is.
    pub entry: Entry<'a>,
    /// Whether there is a column for bands.
    pub bands: bool,
}

impl fmt::Display for Row<'_> {
    fn fmt<W: fmt::Write>(&self, f: &mut fmt::Formatter<W>) -> fmt::Result {
        let offset = self.offset;
        let length = self.entry.length();
        write!(f, "{offset:>8}  {length:>6}  ")?;
        match self.entry {
            Entry::Line { line, .. } => self.write_line(f, &line),
            Entry::Refused { prefix, fault } => write!(
                f,
                "refused       {}: {fault} (refusal {})",
                Quoted(prefix),
                fault.number()
            ),
            Entry::Cut { length, missing } => write!(
                f,
                "cut off       {length} bytes are here, {missing} are missing (refusal {})",
                DecodeFault::Missing(missing).number()
            ),
        }
    }
}

impl Row<'_> {
    fn write_line<W: fmt::Write>(
        &self,
        f: &mut fmt::Formatter<W>,
        line: &PacketLineRef<'_>,
    ) -> fmt::Result {
        match line {
            PacketLineRef::Data(payload) if self.bands => {
                write_banded(f, payload, line.decode_band())
            }
            PacketLineRef::Data(payload) => write!(f, "data          {}", Excerpt(payload)),
            PacketLineRef::Flush => f.write_str("flush"),
            PacketLineRef::Delimiter => f.write_str("delim"),
            PacketLineRef::ResponseEnd => f.write_str("response-end"),
        }
    }
}

/// Writes a data line whose first byte is its band.
fn write_banded<W: fmt::Write>(
    f: &mut fmt::Formatter<W>,
    payload: &[u8],
    banded: Result<BandRef<'_>, BandError>,
) -> fmt::Result {
    // Kind and band in one text, as wide as their columns: padding by `{:<12}` takes a third more for a short row.
    let (columns, rest) = match banded {
        Ok(BandRef::Data(rest)) => ("data          1 data      ", rest),
        Ok(BandRef::Progress(rest)) => ("data          2 progress  ", rest),
        Ok(BandRef::Error(rest)) => ("data          3 error     ", rest),
        Err(BandError::UnknownBand(first)) => {
            return write!(f, "data          none 0x{first:02x}   {}", Excerpt(payload));
        }
        Err(BandError::NoBand) => return f.write_str("data"),
    };
    f.write_str(columns)?;
    f.write(Excerpt(rest))
}
