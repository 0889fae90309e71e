//! What gives bytes, with interruptions and faults among them.
ghost use Rattle.std.specs.Prelude.{◌≡◌, List};
ghost use Rattle.links.specs.Items.{Item};
ghost use Rattle.links.specs.Reads.{Reads};
ghost use Rattle.links.specs.Collect.{Collects};
ghost use Rattle.links.specs.Meaning.{read_refusal, done_or};
ghost use Rattle.links.specs.declared.source.ReadFault.TheVariants.{Fault as OfSource};

use crate::{LinkFault, Moved};
use lines::{Refusal, Refuses};
use std::error::Error;
use std::fmt;

/// What gives bytes: it means the list of what is to come.
pub trait Source {
    ghost left: { Self → List Item };

    /// Gives bytes into the front of `memory`, or answers and spends the interruption or the fault in front.
    fn read(&mut self, memory: &mut [u8]) -> Result<Moved, LinkFault>
        ensures { Reads (left self.old) memory.old result (left self.new) memory.new };
}

/// Why a memory was not filled.
#[derive(Clone, Copy, Debug, PartialEq, Eq, Hash)]
pub enum ReadFault {
    /// The source has no more.
    Ended,
    /// The source faulted.
    Fault(LinkFault),
}

impl From<LinkFault> for ReadFault {
    ghost from_gives = { λ e r. r ≡ OfSource e };

    fn from(fault: LinkFault) -> ReadFault {
        ReadFault::Fault(fault)
    }
}

impl Refuses for ReadFault {
    ghost table_row = { read_refusal };

    fn refusal(&self) -> Refusal {
        match *self {
            ReadFault::Ended => Refusal::plain(6),
            ReadFault::Fault(fault) => Refusal::with(7, u64::from(fault.number)),
        }
    }
}

impl fmt::Display for ReadFault {
    fn fmt<W: fmt::Write>(&self, f: &mut fmt::Formatter<W>) -> fmt::Result {
        match self {
            ReadFault::Ended => f.write_str("the source has no more"),
            ReadFault::Fault(fault) => write!(f, "the source has {fault}"),
        }
    }
}

impl Error for ReadFault {}

/// Fills `memory` from `source`, and passes over interruptions.
///
/// Refuses where the source ends or faults before; the bytes given until then stand in front of `memory`.
pub fn read_exact<S: Source>(source: &mut S, memory: &mut [u8]) -> Result<(), ReadFault>
    ensures { Collects (S.left source.old) memory.old (done_or read_refusal result) (S.left source.new) memory.new }
{
    // Kept: where a loop moves on a `&mut` slice, nothing is known of `memory` behind the loop.
    let mut at = 0;
    'fill: while at < memory.len() {
        match source.read(&mut memory[at..])? {
            Moved::Interrupted => continue,
            Moved::Bytes(0) => return Err(ReadFault::Ended),
            Moved::Bytes(n) => at += n,
        }
    }
    Ok(())
}
