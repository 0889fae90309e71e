//! Bytes sent to a lent memory, and what it holds when the sink over it is gone.
ghost use Rattle.std.specs.Prelude.{◌≡◌};
ghost use Rattle.links.specs.Slots.{holds};
ghost use Rattle.links.specs.Send.{send, pushed};
ghost use Rattle.links.specs.Meaning.{done_or, write_refusal};
ghost use Rattle.sinks.specs.Stands.{fresh, fresh_trace};

use crate::memory::Memory;
use crate::trace::Trace;
use links::sink::{WriteFault, write_all};

/// Sends `bytes` to the front of `memory`.
///
/// Refuses where `memory` is shorter; it then holds the bytes that fit.
pub fn send_to_memory(memory: &mut [u8], bytes: &[u8]) -> Result<(), WriteFault>
    ensures answer { (send bytes.now (fresh memory.entry.ghost_name memory.old).room).answer ≡ done_or write_refusal result }
    ensures memory { memory.new ≡ holds (pushed bytes.now (fresh memory.entry.ghost_name memory.old)) }
{
    let mut sink = Memory::new(memory);
    write_all(&mut sink, bytes)
}

/// Sends `bytes` to the front of `memory`, in the steps of a trace.
///
/// Refuses where the steps have too few places, or a fault before; `memory` then holds the bytes accepted until then.
// Kept: it differs from `send_to_memory` in the sink that it makes; what they share is `write_all`.
pub fn send_to_trace(memory: &mut [u8], steps: &[u8], bytes: &[u8]) -> Result<(), WriteFault>
    ensures answer { (send bytes.now (fresh_trace memory.entry.ghost_name memory.old steps.now).room).answer ≡ done_or write_refusal result }
    ensures memory { memory.new ≡ holds (pushed bytes.now (fresh_trace memory.entry.ghost_name memory.old steps.now)) }
{
    let mut trace = Trace::new(memory, steps);
    write_all(&mut trace, bytes)
}
