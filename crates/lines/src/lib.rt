//! Git packet lines without copying them: lines, their bands, and the faults of this layer.
#![tactic(auto)]

ghost use Rattle.std.specs.Prelude.{◌≡◌, Some, Decides};
ghost use Rattle.std.specs.Option.{option_map};
ghost use Rattle.lines.specs.Format.{and_then, payload_of, message, text, on, channel, line_band};
ghost use Rattle.lines.specs.Meaning.{answered, line_of, channel_of, band_of, band_refusal};

pub mod decode;
pub mod encode;
pub mod refusal;

pub use refusal::{Refusal, Refuses};
use std::error::Error;
use std::fmt;

/// The bytes of a prefix.
pub const U16_HEX_BYTES: usize = 4;

/// The bytes of the longest payload.
pub const MAX_DATA_LEN: usize = 65516;

/// The bytes of the longest line, its prefix among them.
pub const MAX_LINE_LEN: usize = MAX_DATA_LEN + U16_HEX_BYTES;

/// One of the three bands that share a connection.
#[derive(Clone, Copy, Debug, PartialEq, Eq, PartialOrd, Ord, Hash)]
pub enum Channel {
    /// The usable data itself, in any format.
    Data = 1,
    /// Progress information for a person to read.
    Progress = 2,
    /// Error information for a person to read.
    Error = 3,
}

/// A packet line that borrows its payload from the bytes it was decoded from.
#[derive(Clone, Copy, Debug, PartialEq, Eq, PartialOrd, Ord, Hash)]
pub enum PacketLineRef<'a> {
    /// A payload.
    Data(&'a [u8]),
    /// The end of a message.
    Flush,
    /// A border between the sections of a message.
    Delimiter,
    /// The end of a response.
    ResponseEnd,
}

/// What came on a band, without its band byte.
#[derive(Clone, Copy, Debug, PartialEq, Eq, PartialOrd, Ord, Hash)]
pub enum BandRef<'a> {
    /// Data.
    Data(&'a [u8]),
    /// Progress information for a person to read.
    Progress(&'a [u8]),
    /// Error information for a person to read.
    Error(&'a [u8]),
}

/// An error message.
#[derive(Clone, Copy, Debug, PartialEq, Eq, PartialOrd, Ord, Hash)]
pub struct ErrorRef<'a>(pub &'a [u8]);

/// A text without the newline that may end it.
#[derive(Clone, Copy, Debug, PartialEq, Eq, PartialOrd, Ord, Hash)]
pub struct TextRef<'a>(pub &'a [u8]);

/// Why a line has no band.
#[derive(Clone, Copy, Debug, PartialEq, Eq, PartialOrd, Ord, Hash)]
pub enum BandError {
    /// It is a marker, or a payload of no bytes.
    NoBand,
    /// Its band byte, held here, is not 1, 2 or 3.
    UnknownBand(u8),
}

impl<'a> PacketLineRef<'a> {
    /// The payload; a marker has none.
    pub fn as_slice(&self) -> Option<&'a [u8]>
        ensures { option_map (λ x. x.now) result ≡ payload_of (line_of self.now) }
    {
        match self {
            PacketLineRef::Data(d) => Some(d),
            PacketLineRef::Flush | PacketLineRef::Delimiter | PacketLineRef::ResponseEnd => None,
        }
    }

    /// The whole payload as an error message, whatever it begins with.
    pub fn as_error(&self) -> Option<ErrorRef<'a>>
        ensures { option_map (λ e. e.0.now) result ≡ payload_of (line_of self.now) }
    {
        Some(ErrorRef(self.as_slice()?))
    }

    /// The message of a payload that begins `ERR `.
    pub fn check_error(&self) -> Option<ErrorRef<'a>>
        ensures { option_map (λ e. e.0.now) result ≡ and_then (payload_of (line_of self.now)) message }
    {
        match self.as_slice()? {
            [b'E', b'R', b'R', b' ', message @ ..] => Some(ErrorRef(message)),
            _ => None,
        }
    }

    /// The payload as a text, without the newline that may end it.
    pub fn as_text(&self) -> Option<TextRef<'a>>
        ensures { option_map (λ t. t.0.now) result ≡ option_map text (payload_of (line_of self.now)) }
    {
        Some(self.as_slice()?.into())
    }

    /// The whole payload as what came on the band `kind`.
    pub fn as_band(&self, kind: Channel) -> Option<BandRef<'a>>
        ensures { option_map band_of result ≡ option_map (on (channel_of kind)) (payload_of (line_of self.now)) }
    {
        Some(BandRef::on(kind, self.as_slice()?))
    }

    /// The band that the payload's first byte tells, and the rest on it.
    ///
    /// Refuses a marker and a payload of no bytes, and a band byte other than 1, 2 and 3.
    pub fn decode_band(&self) -> Result<BandRef<'a>, BandError>
        ensures { answered band_of band_refusal result ≡ line_band (line_of self.now) }
    {
        match self.as_slice().ok_or(BandError::NoBand)? {
            [] => Err(BandError::NoBand),
            [band, rest @ ..] => Ok(BandRef::on(Channel::try_from(*band)?, rest)),
        }
    }
}

impl TryFrom<u8> for Channel {
    type Error = BandError;

    ghost try_from_gives = { λ b r. answered channel_of band_refusal r ≡ channel b };

    fn try_from(byte: u8) -> Result<Channel, BandError> {
        match byte {
            1 => Ok(Channel::Data),
            2 => Ok(Channel::Progress),
            3 => Ok(Channel::Error),
            other => Err(BandError::UnknownBand(other)),
        }
    }
}

impl<'a> BandRef<'a> {
    // What came on the band `kind`.
    fn on(kind: Channel, d: &'a [u8]) -> BandRef<'a>
        ensures { band_of result ≡ on (channel_of kind) d.now }
    {
        match kind {
            Channel::Data => BandRef::Data(d),
            Channel::Progress => BandRef::Progress(d),
            Channel::Error => BandRef::Error(d),
        }
    }
}

impl<'a> TextRef<'a> {
    /// The bytes of the text.
    pub fn as_slice(&self) -> &'a [u8]
        ensures { result.now ≡ self.now.0.now }
    {
        self.0
    }
}

impl<'a> From<&'a [u8]> for TextRef<'a> {
    ghost from_gives = { λ d r. r.0.now ≡ text d.now };

    fn from(d: &'a [u8]) -> TextRef<'a> {
        match d {
            [text @ .., b'\n'] => TextRef(text),
            _ => TextRef(d),
        }
    }
}

impl Refuses for BandError {
    ghost table_row = { band_refusal };

    fn refusal(&self) -> Refusal {
        match *self {
            BandError::NoBand => Refusal::plain(9),
            BandError::UnknownBand(band) => Refusal::with(10, u64::from(band)),
        }
    }
}

impl fmt::Display for BandError {
    fn fmt<W: fmt::Write>(&self, f: &mut fmt::Formatter<W>) -> fmt::Result {
        match self {
            BandError::NoBand => f.write_str("a marker or no payload, and so no band"),
            BandError::UnknownBand(band) => write!(f, "the byte {band} is no band"),
        }
    }
}

impl Error for BandError {}

/// Whether two lines are the same: the same marker, or the same payload.
pub fn same_line(a: &PacketLineRef<'_>, b: &PacketLineRef<'_>) -> bool
    ensures { Decides result (line_of a.now ≡ line_of b.now) }
{
    *a == *b
}
