//! What the words behind a call's name mean.
ghost use Rattle.std.specs.Prelude.{◌≡◌, ◌+◌, [], ◌∷◌, IfOk, Some, None, MatchResult};
ghost use Rattle.lines.specs.Meaning.{line_of, channel_of};
ghost use Rattle.replay.specs.Terms.{pairs, term, NoBytes, written_line, IsLine};

use crate::script::ScriptFault;
use hex_digits::hex_byte;
use lines::{Channel, PacketLineRef};
use std::alloc::Global;

/// A line that a script writes out.
#[derive(Debug, Drop, PartialEq, Eq, Hash)]
pub enum ScriptLine {
    /// The bytes of a payload.
    Payload(Vec<u8>),
    /// A line that has a name.
    Named(PacketLineRef<'static>),
}

impl ScriptLine {
    /// The packet line that it stands for.
    pub fn as_packet_line(&self) -> PacketLineRef<'_>
        ensures { line_of result ≡ written_line self.now }
    {
        match self {
            ScriptLine::Payload(d) => PacketLineRef::Data(d.as_slice()),
            ScriptLine::Named(line) => *line,
        }
    }
}

/// The line of a word: a marker's name, or the bytes of a payload.
pub fn parse_line(heap: Global, word: &str) -> Result<ScriptLine, ScriptFault>
    ensures { IfOk result (λ l. IsLine word.now (written_line l)) }
{
    match word {
        "flush" => Ok(ScriptLine::Named(PacketLineRef::Flush)),
        "delim" => Ok(ScriptLine::Named(PacketLineRef::Delimiter)),
        "end" => Ok(ScriptLine::Named(PacketLineRef::ResponseEnd)),
        _ => Ok(ScriptLine::Payload(parse_bytes(heap, word)?)),
    }
}

/// The band of a word.
pub fn parse_band(word: &str) -> Result<Channel, ScriptFault>
    ensures { IfOk result (λ k. word.now ≡ (48 + channel_of k) ∷ []) }
{
    // Kept: a parsed `u8` and `try_from` would take `01` and `+1` too, and a digit taken apart is no plainer.
    match word {
        "1" => Ok(Channel::Data),
        "2" => Ok(Channel::Progress),
        "3" => Ok(Channel::Error),
        _ => Err(ScriptFault::Band),
    }
}

/// The number of a word.
pub fn parse_number(word: &str) -> Result<u16, ScriptFault> {
    word.parse::<u16>().map_err(|_| ScriptFault::Number)
}

/// The bytes of a word: none for `-`, or those that the digits behind `h` write.
#[tactic(auto, using(crate::proofs::Pairs::pairs_behind))]
pub fn parse_bytes(heap: Global, word: &str) -> Result<Vec<u8>, ScriptFault>
    ensures { MatchResult result (λ v. term word.now ≡ Some v.items) (NoBytes (term word.now ≡ None)) }
{
    match word.as_bytes() {
        b"-" => Ok(Vec::new(heap)),
        [b'h', digits @ ..] => parse_pairs(heap, digits),
        _ => Err(ScriptFault::Bytes),
    }
}

/// The bytes that pairs of hexadecimal digits write.
#[tactic(auto, using(crate::proofs::Pairs::reading))]
fn parse_pairs(heap: Global, digits: &[u8]) -> Result<Vec<u8>, ScriptFault>
    ensures { MatchResult result (λ v. pairs digits.now ≡ Some v.items) (NoBytes (pairs digits.now ≡ None)) }
{
    let (pairs, []) = digits.as_chunks::<2>() else {
        return Err(ScriptFault::Bytes);
    };
    let mut bytes = Vec::new(heap);
    for [high, low] in pairs {
        bytes.push(hex_byte(*high, *low).ok_or(ScriptFault::Bytes)?)?;
    }
    Ok(bytes)
}
