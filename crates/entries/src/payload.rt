//! How a payload is shown.
ghost use Rattle.std.specs.Prelude.{◌≡◌, ◌≤◌, length, take, IsUtf8, All, Decides, Some};
ghost use Rattle.entries.specs.Printing.{Plain, plain, spelling, written};

use std::fmt;

/// How a byte is written between quotes.
#[derive(Clone, Copy, Debug, PartialEq, Eq, Hash)]
pub enum Spelling {
    /// As itself.
    Same(char),
    /// As a backslash and a letter or sign.
    Escaped(char),
    /// As `\x` and two hexadecimal digits.
    Hex(u8),
}

impl fmt::Display for Spelling {
    ghost output = { λ s. Some (written s) };

    #[tactic(auto, using(std::proofs::lemmas::Fmt::hex_byte))]
    fn fmt<W: fmt::Write>(&self, f: &mut fmt::Formatter<W>) -> fmt::Result {
        match *self {
            Spelling::Same(c) => write!(f, "{c}"),
            Spelling::Escaped(c) => write!(f, "\\{c}"),
            Spelling::Hex(byte) => write!(f, "\\x{byte:02x}"),
        }
    }
}

/// The spelling of a byte between quotes.
pub fn spell(byte: u8) -> Spelling
    ensures { result ≡ spelling byte }
{
    match byte {
        0 => Spelling::Escaped('0'),
        b'\t' => Spelling::Escaped('t'),
        b'\n' => Spelling::Escaped('n'),
        b'\r' => Spelling::Escaped('r'),
        b'"' => Spelling::Escaped('"'),
        b'\\' => Spelling::Escaped('\\'),
        b' '..=b'~' => Spelling::Same(char::from(byte)),
        _ => Spelling::Hex(byte),
    }
}

/// Whether a payload is shown as text: UTF-8 without control characters other than NUL, the three band bytes, tab, newline and carriage return.
pub fn is_text(bytes: &[u8]) -> bool
    ensures { Decides result (IsUtf8 bytes.now × All Plain bytes.now) }
{
    std::str::from_utf8(bytes).is_ok() && bytes.iter().all(|b| is_plain(*b))
}

fn is_plain(byte: u8) -> bool
    ensures { result ≡ plain byte }
{
    matches!(byte, 0..=3 | b'\t' | b'\n' | b'\r' | b' '..=b'~' | 0x80..)
}

/// The first bytes, as many as `most`.
pub fn front(bytes: &[u8], most: usize) -> &[u8]
    ensures is { result.now ≡ take most bytes.now }
    ensures within { length result.now ≤ length bytes.now }
{
    &bytes[..most.min(bytes.len())]
}
