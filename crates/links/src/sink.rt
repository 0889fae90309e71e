//! What takes bytes, with interruptions and faults among its places.
ghost use Rattle.std.specs.Prelude.{◌≡◌};
ghost use Rattle.links.specs.Slots.{Stand};
ghost use Rattle.links.specs.Writes.{Writes};
ghost use Rattle.links.specs.Send.{Sends};
ghost use Rattle.links.specs.Meaning.{write_refusal, done_or};
ghost use Rattle.links.specs.declared.sink.WriteFault.TheVariants.{Fault as OfSink};

use crate::{LinkFault, Moved};
use lines::{Refusal, Refuses};
use std::error::Error;
use std::fmt;

/// What takes bytes: it means the bytes accepted, and the list of the places, interruptions and faults to come.
pub trait Sink {
    ghost stand: { Self → Stand };

    /// Takes bytes from the front of `bytes`, or answers and spends the interruption or the fault in front.
    fn write(&mut self, bytes: &[u8]) -> Result<Moved, LinkFault>
        ensures { Writes (stand self.old) bytes.now result (stand self.new) };
}

/// Why bytes were not all accepted.
// Kept: it differs from `ReadFault` in its first case alone, but that case has a row and a name of its own.
#[derive(Clone, Copy, Debug, PartialEq, Eq, Hash)]
pub enum WriteFault {
    /// The sink took none.
    WriteZero,
    /// The sink faulted.
    Fault(LinkFault),
}

impl From<LinkFault> for WriteFault {
    ghost from_gives = { λ e r. r ≡ OfSink e };

    fn from(fault: LinkFault) -> WriteFault {
        WriteFault::Fault(fault)
    }
}

impl Refuses for WriteFault {
    ghost table_row = { write_refusal };

    fn refusal(&self) -> Refusal {
        match *self {
            WriteFault::WriteZero => Refusal::plain(19),
            WriteFault::Fault(fault) => Refusal::with(20, u64::from(fault.number)),
        }
    }
}

impl fmt::Display for WriteFault {
    fn fmt<W: fmt::Write>(&self, f: &mut fmt::Formatter<W>) -> fmt::Result {
        match self {
            WriteFault::WriteZero => f.write_str("the sink takes no bytes"),
            WriteFault::Fault(fault) => write!(f, "the sink has {fault}"),
        }
    }
}

impl Error for WriteFault {}

/// Sends all of `bytes` to `sink`, and passes over interruptions.
///
/// Refuses where the sink takes none or faults before; the bytes accepted until then stay accepted.
// Kept: it differs from `read_exact` in `&` for `&mut`, over which no function is generic.
pub fn write_all<K: Sink>(sink: &mut K, bytes: &[u8]) -> Result<(), WriteFault>
    ensures { Sends (K.stand sink.old) bytes.now (done_or write_refusal result) (K.stand sink.new) }
{
    let mut rest = bytes;
    'push: while !rest.is_empty() {
        match sink.write(rest)? {
            Moved::Interrupted => continue,
            Moved::Bytes(0) => return Err(WriteFault::WriteZero),
            Moved::Bytes(n) => rest = &rest[n..],
        }
    }
    Ok(())
}
