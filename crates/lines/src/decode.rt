//! Packet lines from bytes.
ghost use Rattle.std.specs.Prelude.{◌≡◌, length, IfOk};
ghost use Rattle.hex_digits.specs.Digits.{length_field};
ghost use Rattle.lines.specs.Decoding.{prefix, limited, Fits, streamed, decoded, data_line, Within};
ghost use Rattle.lines.specs.Meaning.{answered, line_of, prefix_of, streamed_of, decode_refusal};
ghost use Rattle.lines.specs.Laws.{Inverse, TakenOff};
ghost use Rattle.lines.specs.Examples.{Examples};

use crate::refusal::{Refusal, Refuses};
use crate::{MAX_DATA_LEN, MAX_LINE_LEN, PacketLineRef, U16_HEX_BYTES};
use hex_digits::hex_byte;
use std::error::Error;
use std::fmt;

/// What the bytes at hand are.
#[derive(Clone, Copy, Debug, PartialEq, Eq, Hash)]
pub enum Stream<'a> {
    /// One line, whole.
    Complete {
        /// The line.
        line: PacketLineRef<'a>,
        /// How many of the bytes it took.
        bytes_consumed: usize,
    },
    /// A part of a line.
    Incomplete {
        /// How many more bytes are needed.
        bytes_needed: usize,
    },
}

/// What a prefix announces.
#[derive(Clone, Copy, Debug, PartialEq, Eq, Hash)]
pub enum PacketLineOrWantedSize<'a> {
    /// A marker; never a line with a payload.
    Line(PacketLineRef<'a>),
    /// How many bytes of payload follow.
    Wanted(u16),
}

/// Why bytes are no line.
#[derive(Clone, Copy, Debug, PartialEq, Eq, Hash)]
pub enum DecodeFault {
    /// The prefix is not four hexadecimal digits.
    NotHex,
    /// The prefix has the value 3.
    LengthThree,
    /// The prefix has the value 4: a line of no payload.
    EmptyLine,
    /// This length exceeds the limit.
    TooLong(usize),
    /// This many bytes are missing from the line.
    Missing(usize),
}

impl Refuses for DecodeFault {
    ghost table_row = { decode_refusal };

    fn refusal(&self) -> Refusal {
        match *self {
            DecodeFault::NotHex => Refusal::plain(1),
            DecodeFault::LengthThree => Refusal::plain(2),
            DecodeFault::EmptyLine => Refusal::plain(3),
            DecodeFault::TooLong(length) => Refusal::with(4, length as u64),
            DecodeFault::Missing(bytes) => Refusal::with(5, bytes as u64),
        }
    }
}

impl fmt::Display for DecodeFault {
    fn fmt<W: fmt::Write>(&self, f: &mut fmt::Formatter<W>) -> fmt::Result {
        match self {
            DecodeFault::NotHex => f.write_str("not four hexadecimal digits"),
            DecodeFault::LengthThree => f.write_str("no line has the length 3"),
            DecodeFault::EmptyLine => f.write_str("a line of no payload"),
            DecodeFault::TooLong(length) => write!(
                f,
                "a line of {length} bytes, and {MAX_LINE_LEN} is the most"
            ),
            DecodeFault::Missing(bytes) => write!(f, "{bytes} bytes are missing"),
        }
    }
}

impl Error for DecodeFault {}

/// Decodes a prefix of four hexadecimal digits, which has no upper limit here.
///
/// Refuses other than four digits, and the values 3 and 4.
pub fn hex_prefix(four_bytes: &[u8]) -> Result<PacketLineOrWantedSize<'_>, DecodeFault>
    ensures { answered prefix_of decode_refusal result ≡ prefix four_bytes.now }
{
    let wanted_bytes = hex_value(four_bytes).ok_or(DecodeFault::NotHex)?;
    match wanted_bytes {
        0 => Ok(PacketLineOrWantedSize::Line(PacketLineRef::Flush)),
        1 => Ok(PacketLineOrWantedSize::Line(PacketLineRef::Delimiter)),
        2 => Ok(PacketLineOrWantedSize::Line(PacketLineRef::ResponseEnd)),
        3 => Err(DecodeFault::LengthThree),
        4 => Err(DecodeFault::EmptyLine),
        _ => Ok(PacketLineOrWantedSize::Wanted(wanted_bytes - U16_HEX_BYTES as u16)),
    }
}

/// Decodes a prefix as `hex_prefix` does, within the limit of a line.
///
/// Refuses as `hex_prefix` does, and a line of more than 65,520 bytes, with that length.
pub fn limited_prefix(four_bytes: &[u8]) -> Result<PacketLineOrWantedSize<'_>, DecodeFault>
    ensures is { answered prefix_of decode_refusal result ≡ limited (prefix four_bytes.now) }
    ensures within { IfOk result (λ s. Fits (prefix_of s)) }
{
    let prefix = hex_prefix(four_bytes)?;
    match prefix {
        PacketLineOrWantedSize::Wanted(size) if usize::from(size) > MAX_DATA_LEN => {
            Err(DecodeFault::TooLong(usize::from(size) + U16_HEX_BYTES))
        }
        _ => Ok(prefix),
    }
}

/// The data line of a payload.
///
/// Refuses more than 65,516 bytes, with the length.
pub fn to_data_line(data: &[u8]) -> Result<PacketLineRef<'_>, DecodeFault>
    ensures { answered line_of decode_refusal result ≡ data_line «data».now }
{
    if data.len() > MAX_DATA_LEN {
        return Err(DecodeFault::TooLong(data.len()));
    }
    Ok(PacketLineRef::Data(data))
}

/// Decodes the line that `data` begins with, or says how many bytes it still needs.
///
/// Refuses a prefix as `limited_prefix` does.
pub fn streaming(data: &[u8]) -> Result<Stream<'_>, DecodeFault>
    ensures is { answered streamed_of decode_refusal result ≡ streamed «data».now }
    ensures within { IfOk result (λ s. Within (length «data».now) (streamed_of s)) }
{
    let data_len = data.len();
    if data_len < U16_HEX_BYTES {
        return Ok(Stream::Incomplete {
            bytes_needed: U16_HEX_BYTES - data_len,
        });
    }
    let wanted_bytes = match limited_prefix(&data[0..U16_HEX_BYTES])? {
        PacketLineOrWantedSize::Wanted(size) => usize::from(size) + U16_HEX_BYTES,
        PacketLineOrWantedSize::Line(line) => {
            return Ok(Stream::Complete {
                line,
                bytes_consumed: U16_HEX_BYTES,
            });
        }
    };
    if data_len < wanted_bytes {
        return Ok(Stream::Incomplete {
            bytes_needed: wanted_bytes - data_len,
        });
    }
    let line = to_data_line(&data[U16_HEX_BYTES..wanted_bytes])?;
    Ok(Stream::Complete {
        line,
        bytes_consumed: wanted_bytes,
    })
}

/// Decodes the line that `data` begins with.
///
/// Refuses as `streaming` does, and a part of a line, with the bytes that are missing.
pub fn all_at_once(data: &[u8]) -> Result<PacketLineRef<'_>, DecodeFault>
    ensures { answered line_of decode_refusal result ≡ decoded «data».now }
{
    match streaming(data)? {
        Stream::Complete { line, .. } => Ok(line),
        Stream::Incomplete { bytes_needed } => Err(DecodeFault::Missing(bytes_needed)),
    }
}

/// Carries the theorem that decoding and writing belong to one grammar.
pub fn decoding_inverts_encoding()
    ensures inverse { Inverse }
    ensures taken_off { TakenOff }
{}

/// Carries the worked examples of the format.
pub fn examples_hold()
    ensures { Examples }
{}

#[tactic(auto, using(hex_digits::proofs::Reading::by_halves, hex_digits::proofs::Reading::no_field))]
fn hex_value(four_bytes: &[u8]) -> Option<u16>
    ensures { result ≡ length_field four_bytes.now }
{
    let [a, b, c, d] = four_bytes else {
        return None;
    };
    let high = hex_byte(*a, *b)?;
    let low = hex_byte(*c, *d)?;
    Some(u16::from_be_bytes([high, low]))
}
