//! A payload in print.
use entries::payload::{front, is_text, spell};
use std::fmt;

const MOST_TEXT: usize = 64;

const MOST_HEX: usize = 20;

/// Bytes between quotes, each in its spelling.
#[derive(Clone, Copy, Debug, PartialEq, Eq, Hash)]
pub struct Quoted<'a>(pub &'a [u8]);

impl fmt::Display for Quoted<'_> {
    fn fmt<W: fmt::Write>(&self, f: &mut fmt::Formatter<W>) -> fmt::Result {
        f.write_char('"')?;
        for byte in self.0 {
            f.write(spell(*byte))?;
        }
        f.write_char('"')
    }
}

/// Bytes as pairs of hexadecimal digits.
#[derive(Clone, Copy, Debug, PartialEq, Eq, Hash)]
struct Pairs<'a>(&'a [u8]);

impl fmt::Display for Pairs<'_> {
    fn fmt<W: fmt::Write>(&self, f: &mut fmt::Formatter<W>) -> fmt::Result {
        f.write_str("hex")?;
        for byte in self.0 {
            write!(f, " {byte:02x}")?;
        }
        Ok(())
    }
}

/// How many bytes follow an excerpt; nothing where none do.
#[derive(Clone, Copy, Debug, PartialEq, Eq, Hash)]
struct Rest(usize);

impl fmt::Display for Rest {
    fn fmt<W: fmt::Write>(&self, f: &mut fmt::Formatter<W>) -> fmt::Result {
        match self.0 {
            0 => Ok(()),
            rest => write!(f, " .. {rest} more"),
        }
    }
}

/// The first bytes of a payload, as text or as hexadecimal digits, and how many bytes follow it.
#[derive(Clone, Copy, Debug, PartialEq, Eq, Hash)]
pub struct Excerpt<'a>(pub &'a [u8]);

impl fmt::Display for Excerpt<'_> {
    fn fmt<W: fmt::Write>(&self, f: &mut fmt::Formatter<W>) -> fmt::Result {
        let Excerpt(all) = *self;
        if is_text(all) {
            let shown = front(all, MOST_TEXT);
            write!(f, "{}{}", Quoted(shown), Rest(all.len() - shown.len()))
        } else {
            let shown = front(all, MOST_HEX);
            write!(f, "{}{}", Pairs(shown), Rest(all.len() - shown.len()))
        }
    }
}
