//! The closing count in print.
use entries::totals::{MOST_REFUSALS, Totals};
use std::fmt;

/// What a capture held, in the lines that close it.
#[derive(Clone, Copy, Debug, PartialEq, Eq, Hash)]
pub struct Closing(pub Totals);

impl fmt::Display for Closing {
    fn fmt<W: fmt::Write>(&self, f: &mut fmt::Formatter<W>) -> fmt::Result {
        let Totals {
            data_lines,
            flushes,
            delimiters,
            response_ends,
            payload_bytes,
            refusals,
            missing_bytes,
            bytes,
            in_a_row: _,
            undecoded,
        } = self.0;
        if undecoded > 0 {
            let offset = bytes.saturating_sub(undecoded);
            writeln!(
                f,
                "{offset:>8}  {undecoded:>6}  not decoded   {MOST_REFUSALS} prefixes in a row were refused"
            )?;
        }
        writeln!(
            f,
            "\nlines    {data_lines} data, {flushes} flush, {delimiters} delim, {response_ends} response-end"
        )?;
        writeln!(f, "payload  {payload_bytes} bytes")?;
        writeln!(
            f,
            "refused  {refusals} prefixes, {missing_bytes} bytes missing, {undecoded} bytes not decoded"
        )?;
        writeln!(f, "capture  {bytes} bytes")
    }
}
