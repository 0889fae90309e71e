//! Refusals, by their table.
ghost use Rattle.std.specs.Prelude.{◌≡◌, Some, None};
ghost use Rattle.lines.specs.Refusals.{Refusal as Row, refused, number_of, value_of, written};
ghost use Rattle.lines.specs.Meaning.{row_of};

use std::fmt;

/// A refusal: a number of the table of refusals, and the value that comes with it, if its row has one.
#[derive(Clone, Copy, Debug, PartialEq, Eq, Hash)]
pub struct Refusal {
    /// The number of the row.
    pub number: u8,
    /// The value.
    pub value: Option<u64>,
}

/// Why a call refuses: it means a row of the table of refusals.
pub trait Refuses {
    ghost table_row: { Self → Row };

    /// The row.
    fn refusal(&self) -> Refusal
        ensures { row_of result ≡ table_row self.now };

    /// The number of the row.
    fn number(&self) -> u8
        ensures { result ≡ number_of (table_row self.now) }
    {
        self.refusal().number
    }

    /// The value that comes with it.
    fn value(&self) -> Option<u64>
        ensures { result ≡ value_of (table_row self.now) }
    {
        self.refusal().value
    }
}

impl Refusal {
    /// The row of a number with no value.
    pub fn plain(number: u8) -> Refusal
        ensures { row_of result ≡ refused number None }
    {
        Refusal {
            number,
            value: None,
        }
    }

    /// The row of a number with a value.
    pub fn with(number: u8, value: u64) -> Refusal
        ensures { row_of result ≡ refused number (Some value) }
    {
        Refusal {
            number,
            value: Some(value),
        }
    }
}

impl<F: Refuses + Drop> From<F> for Refusal {
    ghost from_gives = { λ fault r. row_of r ≡ F.table_row fault };

    fn from(fault: F) -> Refusal {
        fault.refusal()
    }
}

impl fmt::Display for Refusal {
    ghost output = { λ r. Some (written (row_of r)) };

    fn fmt<W: fmt::Write>(&self, f: &mut fmt::Formatter<W>) -> fmt::Result {
        write!(f, "{}", self.number)?;
        match self.value {
            Some(value) => write!(f, " {value}"),
            None => Ok(()),
        }
    }
}
