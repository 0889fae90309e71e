//! One unit taken from a source.
ghost use Rattle.std.specs.Prelude.{◌≡◌, length, IfOk};
ghost use Rattle.lines.specs.Decoding.{prefix, limited, Fits};
ghost use Rattle.lines.specs.Meaning.{answered, decode_refusal};
ghost use Rattle.links.specs.Meaning.{unit_refusal, prefix_of_kind, TakesUnit};
ghost use Rattle.links.specs.Laws.{Cuts};
ghost use Rattle.links.specs.declared.unit.UnitFault.TheVariants.{Decode as OfDecode, Link as OfLink};

use crate::memory::LineMemory;
use crate::source::{ReadFault, Source, read_exact};
use lines::decode::{DecodeFault, PacketLineOrWantedSize, limited_prefix};
use lines::{PacketLineRef, Refusal, Refuses, U16_HEX_BYTES};
use std::error::Error;
use std::fmt;

/// A line that is its prefix alone.
#[derive(Clone, Copy, Debug, PartialEq, Eq, Hash)]
pub enum Marker {
    /// The end of a message.
    Flush,
    /// A border between the sections of a message.
    Delimiter,
    /// The end of a response.
    ResponseEnd,
}

/// A line in a memory, by its prefix.
#[derive(Clone, Copy, Debug, PartialEq, Eq, Hash)]
pub enum LineKind {
    /// A marker.
    Marker(Marker),
    /// Data, with the length of its payload, which stands behind the prefix.
    Data(usize),
}

/// Why a unit is no line.
#[derive(Clone, Copy, Debug, PartialEq, Eq, Hash)]
pub enum UnitFault {
    /// The prefix is refused.
    Decode(DecodeFault),
    /// The source ended or faulted.
    Link(ReadFault),
}

impl From<DecodeFault> for UnitFault {
    ghost from_gives = { λ e r. r ≡ OfDecode e };

    fn from(fault: DecodeFault) -> UnitFault {
        UnitFault::Decode(fault)
    }
}

impl From<ReadFault> for UnitFault {
    ghost from_gives = { λ e r. r ≡ OfLink e };

    fn from(fault: ReadFault) -> UnitFault {
        UnitFault::Link(fault)
    }
}

impl Refuses for UnitFault {
    ghost table_row = { unit_refusal };

    fn refusal(&self) -> Refusal {
        match self {
            UnitFault::Decode(fault) => fault.refusal(),
            UnitFault::Link(fault) => fault.refusal(),
        }
    }
}

impl fmt::Display for UnitFault {
    fn fmt<W: fmt::Write>(&self, f: &mut fmt::Formatter<W>) -> fmt::Result {
        match self {
            UnitFault::Decode(fault) => write!(f, "{fault}"),
            UnitFault::Link(fault) => write!(f, "{fault}"),
        }
    }
}

impl Error for UnitFault {}

/// Takes one unit from `source`: its prefix comes to stand in front of `memory`, and its payload behind it.
///
/// Refuses a prefix as `limited_prefix` does, with nothing of a payload taken, and where the source ends or faults before the line is whole.
pub fn read_line_inner<S: Source>(
    source: &mut S,
    memory: &mut LineMemory,
) -> Result<LineKind, UnitFault>
    ensures { TakesUnit (S.left source.old) result (S.left source.new) memory.new.bytes.items }
{
    read_unit(source, &mut memory.bytes)
}

/// Carries the laws of the cut.
pub fn cut_divides_in_order()
    ensures { Cuts }
{}

fn read_unit<S: Source>(source: &mut S, memory: &mut [u8]) -> Result<LineKind, UnitFault>
    requires { length memory.old ≡ 65520 }
    ensures { TakesUnit (S.left source.old) result (S.left source.new) memory.new }
{
    read_exact(source, &mut memory[0..U16_HEX_BYTES])?;
    let kind = line_kind(&memory[0..U16_HEX_BYTES])?;
    if let LineKind::Data(n) = kind {
        read_exact(source, &mut memory[U16_HEX_BYTES..U16_HEX_BYTES + n])?;
    }
    Ok(kind)
}

fn line_kind(four_bytes: &[u8]) -> Result<LineKind, DecodeFault>
    ensures is { answered prefix_of_kind decode_refusal result ≡ limited (prefix four_bytes.now) }
    ensures within { IfOk result (λ k. Fits (prefix_of_kind k)) }
{
    Ok(match limited_prefix(four_bytes)? {
        PacketLineOrWantedSize::Wanted(size) => LineKind::Data(usize::from(size)),
        PacketLineOrWantedSize::Line(PacketLineRef::Delimiter) => LineKind::Marker(
            Marker::Delimiter,
        ),
        PacketLineOrWantedSize::Line(PacketLineRef::ResponseEnd) => LineKind::Marker(
            Marker::ResponseEnd,
        ),
        PacketLineOrWantedSize::Line(_) => LineKind::Marker(Marker::Flush),
    })
}
