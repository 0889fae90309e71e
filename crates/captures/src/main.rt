//! Decodes captures of git to their ends, from memory and from a link, and says what they hold.
#![tactic(auto)]

mod tally;
mod units;

use links::memory::LineMemory;
use links::source::Source;
use sources::memory::Memory;
use sources::trace::Trace;
use std::alloc::{AllocError, Global};
use std::{fs, io};
use tally::tally_of;
use units::{Taken, Units, in_pieces, interrupted, units_of};

const NAMES: [&str; 11] = [
    "archive.resp",
    "http-v0-info-refs.resp",
    "v0-advert.resp",
    "v0-fetch-haves.resp",
    "v0-push.resp",
    "v2-band3.req",
    "v2-band3.resp",
    "v2-ls-remote.req",
    "v2-ls-remote.resp",
    "v2-rpc-bad-want.resp",
    "v2-sideband-all-fetch.resp",
];

/// The largest piece that a capture is cut into.
const LARGEST_PIECE: u8 = 9;

fn main(rt: HostRuntime) -> io::Result<()> {
    println!(rt;
        "capture                      bytes   data  longest  flush  delim  response-end  decoded"
    )?;
    for name in NAMES {
        let bytes = fs::read(&rt, name)?;
        let size = bytes.len();
        let tally = tally_of(bytes.as_slice());
        println!(rt; "{name:<26}  {size:>6}  {tally}")?;
    }
    println!(rt; "")?;
    println!(rt;
        "from a link                  bytes  lines  refusal  pieces of 1 to 9  interrupted"
    )?;
    for name in NAMES {
        let bytes = fs::read(&rt, name)?;
        show_units(&rt, name, bytes.as_slice())?;
    }
    Ok(())
}

fn show_units(rt: &HostRuntime, name: &str, bytes: &[u8]) -> io::Result<()> {
    let heap = rt.alloc();
    let mut capture = Capture {
        bytes,
        memory: LineMemory::new(heap)?,
    };
    let whole = capture.at_once();
    let pieces = agreement(capture.same_in_pieces(heap, whole)?);
    let steps = interrupted(heap, bytes.len())?;
    let interrupted = agreement(capture.in_steps(steps.as_slice()) == whole);
    let Taken { lines, bytes, .. } = whole.taken;
    let refusal = whole.refusal.number;
    println!(rt; "{name:<26}  {bytes:>6}  {lines:>5}  {refusal:>7}  {pieces:<16}  {interrupted}")
}

/// A capture, with a memory for its lines.
#[derive(Debug, Drop)]
struct Capture<'a> {
    bytes: &'a [u8],
    memory: LineMemory,
}

impl Capture<'_> {
    /// What its units come to from a memory.
    fn at_once(&mut self) -> Units {
        units_of(&mut Memory::new(self.bytes), &mut self.memory)
    }

    /// What its units come to in the steps of a trace.
    fn in_steps(&mut self, steps: &[u8]) -> Units {
        units_of(&mut Trace::new(self.bytes, steps), &mut self.memory)
    }

    /// Whether they come to `whole` in pieces of every size.
    fn same_in_pieces(&mut self, heap: Global, whole: Units) -> Result<bool, AllocError> {
        for piece in 1..=LARGEST_PIECE {
            let steps = in_pieces(heap, self.bytes.len(), piece)?;
            if self.in_steps(steps.as_slice()) != whole {
                return Ok(false);
            }
        }
        Ok(true)
    }
}

// Kept: two words for a `bool`; a type with a `Display` of its own is longer.
fn agreement(same: bool) -> &'static str {
    if same { "the same" } else { "other" }
}
