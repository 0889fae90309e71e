//! The script language: one step a line.
ghost use Rattle.std.specs.Prelude.{◌≡◌};
ghost use Rattle.replay.specs.declared.script.ScriptFault.TheVariants.{Memory};

use crate::terms::{ScriptLine, parse_band, parse_bytes, parse_line, parse_number};
use lines::Channel;
use std::alloc::{AllocError, AllocFailed, Global};
use std::error::Error;
use std::fmt;

/// What a line of a script asks for.
#[derive(Debug, Drop, PartialEq, Eq, Hash)]
pub enum Step<'a> {
    /// Nothing: it is empty or a comment.
    Nothing,
    /// The beginning of the case of this name.
    Case(&'a str),
    /// A call, behind the word that names it.
    Call(&'a str, Call),
}

/// A call on packet lines, by the name of its function.
#[derive(Debug, Drop, PartialEq, Eq, Hash)]
pub enum Call {
    /// `hex_prefix BYTES`
    HexPrefix(Vec<u8>),
    /// `streaming BYTES`
    Streaming(Vec<u8>),
    /// `all_at_once BYTES`
    AllAtOnce(Vec<u8>),
    /// `to_data_line BYTES`
    ToDataLine(Vec<u8>),
    /// `decode_band LINE`
    DecodeBand(ScriptLine),
    /// `check_error LINE`
    CheckError(ScriptLine),
    /// `as_text LINE`
    AsText(ScriptLine),
    /// `as_error LINE`
    AsError(ScriptLine),
    /// `as_band LINE K`
    AsBand(ScriptLine, Channel),
    /// `line_eq LINE LINE`
    LineEq(ScriptLine, ScriptLine),
    /// `u16_to_hex N`
    U16ToHex(u16),
}

/// Why a line is no step of a script.
#[derive(Clone, Copy, Debug, PartialEq, Eq, Hash)]
pub enum ScriptFault {
    /// No call has its first word as a name and takes as many words.
    Call,
    /// A word that has to be bytes is none.
    Bytes,
    /// A word that has to be a band is none.
    Band,
    /// A word that has to be a number of 16 bits is none.
    Number,
    /// There was no memory for what it says.
    Memory,
}

impl From<AllocError> for ScriptFault {
    ghost from_gives = { λ _ r. r ≡ Memory };

    fn from(_e: AllocError) -> ScriptFault {
        ScriptFault::Memory
    }
}

impl<T: Drop> From<AllocFailed<T>> for ScriptFault {
    ghost from_gives = { λ _ r. r ≡ Memory };

    fn from(_e: AllocFailed<T>) -> ScriptFault {
        ScriptFault::Memory
    }
}

impl fmt::Display for ScriptFault {
    fn fmt<W: fmt::Write>(&self, f: &mut fmt::Formatter<W>) -> fmt::Result {
        f.write_str(match self {
            ScriptFault::Call => "no call has this name and takes so many words",
            ScriptFault::Bytes => "bytes are `-`, or `h` and pairs of hexadecimal digits",
            ScriptFault::Band => "a band is 1, 2 or 3",
            ScriptFault::Number => "a number is 0 to 65535",
            ScriptFault::Memory => "out of memory",
        })
    }
}

impl Error for ScriptFault {}

/// The step that a line of a script asks for.
pub fn parse_step(heap: Global, text: &str) -> Result<Step<'_>, ScriptFault> {
    let words: Vec<&str> = text.split_whitespace().collect(heap)?;
    match words.as_slice() {
        [] => Ok(Step::Nothing),
        ["case", name] => Ok(Step::Case(name)),
        [first, ..] if first.starts_with('#') => Ok(Step::Nothing),
        [name, rest @ ..] => Ok(Step::Call(name, parse_call(heap, name, rest)?)),
    }
}

/// The call of this name on these words.
fn parse_call(heap: Global, name: &str, words: &[&str]) -> Result<Call, ScriptFault> {
    Ok(match (name, words) {
        ("hex_prefix", [b]) => Call::HexPrefix(parse_bytes(heap, b)?),
        ("streaming", [b]) => Call::Streaming(parse_bytes(heap, b)?),
        ("all_at_once", [b]) => Call::AllAtOnce(parse_bytes(heap, b)?),
        ("to_data_line", [b]) => Call::ToDataLine(parse_bytes(heap, b)?),
        ("decode_band", [l]) => Call::DecodeBand(parse_line(heap, l)?),
        ("check_error", [l]) => Call::CheckError(parse_line(heap, l)?),
        ("as_text", [l]) => Call::AsText(parse_line(heap, l)?),
        ("as_error", [l]) => Call::AsError(parse_line(heap, l)?),
        ("as_band", [l, k]) => Call::AsBand(parse_line(heap, l)?, parse_band(k)?),
        ("line_eq", [a, b]) => Call::LineEq(parse_line(heap, a)?, parse_line(heap, b)?),
        ("u16_to_hex", [n]) => Call::U16ToHex(parse_number(n)?),
        _ => return Err(ScriptFault::Call),
    })
}
