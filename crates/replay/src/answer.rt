//! Answers, and how they are printed.
ghost use Rattle.std.specs.Prelude.{◌≡◌};
ghost use Rattle.replay.specs.Hash.{fnv, mixed};

use lines::decode::{PacketLineOrWantedSize, Stream};
use lines::{BandRef, PacketLineRef};
use std::fmt;

/// What a call answers.
#[derive(Clone, Copy, Debug, PartialEq, Eq, Hash)]
pub enum Answer<'a> {
    /// A line.
    Line(PacketLineRef<'a>),
    /// What a prefix announces.
    Prefix(PacketLineOrWantedSize<'a>),
    /// A whole line, or the bytes that it still needs.
    Stream(Stream<'a>),
    /// A band with what came on it.
    Band(BandRef<'a>),
    /// Bytes, if any were found.
    Found(Option<&'a [u8]>),
    /// Whether two lines are the same.
    Same(bool),
    /// A prefix.
    Digits([u8; 4]),
}

impl fmt::Display for Answer<'_> {
    fn fmt<W: fmt::Write>(&self, f: &mut fmt::Formatter<W>) -> fmt::Result {
        match self {
            Answer::Line(line) | Answer::Prefix(PacketLineOrWantedSize::Line(line)) => {
                write!(f, "{}", Line(*line))
            }
            Answer::Prefix(PacketLineOrWantedSize::Wanted(n)) => write!(f, "wants {n}"),
            Answer::Stream(
                Stream::Complete {
                    line,
                    bytes_consumed,
                },
            ) => write!(f, "complete {} {bytes_consumed}", Line(*line)),
            Answer::Stream(Stream::Incomplete { bytes_needed }) => {
                write!(f, "incomplete {bytes_needed}")
            }
            Answer::Band(band) => write!(f, "{}", Band(*band)),
            Answer::Found(Some(bytes)) => write!(f, "some {}", Bytes(bytes)),
            Answer::Found(None) => f.write_str("none"),
            Answer::Same(same) => write!(f, "{}", u8::from(*same)),
            Answer::Digits(digits) => write!(f, "{}", Bytes(digits)),
        }
    }
}

/// A line as it is printed.
#[derive(Clone, Copy, Debug, PartialEq, Eq, Hash)]
struct Line<'a>(PacketLineRef<'a>);

impl fmt::Display for Line<'_> {
    fn fmt<W: fmt::Write>(&self, f: &mut fmt::Formatter<W>) -> fmt::Result {
        match self.0 {
            PacketLineRef::Data(d) => write!(f, "data:{}", Bytes(d)),
            PacketLineRef::Flush => f.write_str("flush"),
            PacketLineRef::Delimiter => f.write_str("delim"),
            PacketLineRef::ResponseEnd => f.write_str("end"),
        }
    }
}

/// A band and what came on it, as they are printed.
#[derive(Clone, Copy, Debug, PartialEq, Eq, Hash)]
struct Band<'a>(BandRef<'a>);

impl fmt::Display for Band<'_> {
    fn fmt<W: fmt::Write>(&self, f: &mut fmt::Formatter<W>) -> fmt::Result {
        match self.0 {
            BandRef::Data(d) => write!(f, "band 1 {}", Bytes(d)),
            BandRef::Progress(d) => write!(f, "band 2 {}", Bytes(d)),
            BandRef::Error(d) => write!(f, "band 3 {}", Bytes(d)),
        }
    }
}

/// The longest bytes that are printed whole.
const MOST_WHOLE: usize = 64;

/// How many bytes are printed of each end of longer ones.
const END: usize = 8;

/// Bytes as they are printed: `-` for none, hexadecimal pairs, or length, hash and both ends of many.
#[derive(Clone, Copy, Debug, PartialEq, Eq, Hash)]
struct Bytes<'a>(&'a [u8]);

impl fmt::Display for Bytes<'_> {
    fn fmt<W: fmt::Write>(&self, f: &mut fmt::Formatter<W>) -> fmt::Result {
        let all = self.0;
        match all.len() {
            0 => f.write_str("-"),
            1..=MOST_WHOLE => write!(f, "{}", Hex(all)),
            len => {
                let (first, last) = (Hex(&all[..END]), Hex(&all[len - END..]));
                let hash = fnv_1a(all);
                write!(f, "#{len}:{hash:016x}:{first}..{last}")
            }
        }
    }
}

/// Bytes as pairs of hexadecimal digits.
#[derive(Clone, Copy, Debug, PartialEq, Eq, Hash)]
struct Hex<'a>(&'a [u8]);

impl fmt::Display for Hex<'_> {
    fn fmt<W: fmt::Write>(&self, f: &mut fmt::Formatter<W>) -> fmt::Result {
        for byte in self.0 {
            write!(f, "{byte:02x}")?;
        }
        Ok(())
    }
}

/// The hash of no bytes.
const FNV_BASIS: u64 = 0xcbf2_9ce4_8422_2325;

/// What each step multiplies by.
const FNV_PRIME: u64 = 0x100_0000_01b3;

/// The hash FNV-1a of 64 bits.
fn fnv_1a(bytes: &[u8]) -> u64
    ensures { result ≡ fnv bytes.now }
{
    bytes.iter().fold(FNV_BASIS, |hash, byte| mix(hash, *byte))
}

/// The hash after one more byte.
fn mix(hash: u64, byte: u8) -> u64
    ensures { result ≡ mixed hash byte }
{
    (hash ^ u64::from(byte)).wrapping_mul(FNV_PRIME)
}
