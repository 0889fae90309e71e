//! Shows the packet lines of a capture.
#![tactic(auto)]

ghost use Rattle.std.specs.Prelude.{IfOk};
ghost use Rattle.pktline.specs.Pieces.{IsEnd};

mod closing;
mod command;
mod payload;
mod row;

use closing::Closing;
use command::{Command, parse};
use entries::entry::{Entries, Entry};
use entries::totals::Totals;
use row::{Row, Titles};
use std::alloc::AllocError;
use std::fmt::Display;
use std::fs::File;
use std::io::{BufWriter, ErrorKind, Read, Write};
use std::process::ExitCode;
use std::{env, io};

const PIECE: usize = 65536;

const USAGE: &str = "\
usage: pktline show [--bands] FILE

Shows every packet line of FILE, a capture of what git wrote: its offset, its
length with the prefix, its kind, and its payload as text or hexadecimal digits.

  --bands   take the first byte of each payload for its band
";

/// Why a capture was not shown to its end.
#[derive(Debug, Drop)]
enum Failure {
    /// The capture was not read.
    Capture(io::Error),
    /// What it holds was not written.
    Output(io::Error),
}

impl From<io::Error> for Failure {
    fn from(error: io::Error) -> Failure {
        Failure::Output(error)
    }
}

impl From<AllocError> for Failure {
    fn from(error: AllocError) -> Failure {
        Failure::Capture(io::Error::from(error))
    }
}

fn main(rt: HostRuntime) -> ExitCode {
    let words = match arguments(&rt) {
        Ok(words) => words,
        Err(error) => return fail(&rt, format_args!("cannot take the arguments: {error}")),
    };
    match parse(words.as_slice()) {
        Ok(Command::Help) => {
            let _ = rt.print(USAGE);
            ExitCode::SUCCESS
        }
        Ok(Command::Show { file, bands }) => show_file(&rt, file, bands),
        Err(misuse) => fail(&rt, format_args!("{misuse} (see pktline help)")),
    }
}

/// Says why on standard error, and answers the status 1.
fn fail(rt: &HostRuntime, why: impl Display + Drop) -> ExitCode {
    let _ = eprintln!(rt; "pktline: {why}");
    ExitCode::FAILURE
}

fn arguments(rt: &HostRuntime) -> io::Result<Vec<String>> {
    Ok(env::args(rt)?.skip(1).collect(rt.alloc())?)
}

fn show_file(rt: &HostRuntime, file: &str, bands: bool) -> ExitCode {
    match show(rt, file, bands) {
        Ok(()) => ExitCode::SUCCESS,
        Err(Failure::Capture(error)) => fail(rt, format_args!("cannot read {file}: {error}")),
        Err(Failure::Output(error)) => fail(rt, format_args!("cannot write: {error}")),
    }
}

fn show(rt: &HostRuntime, file: &str, bands: bool) -> Result<(), Failure> {
    let mut capture = File::open(rt, file).map_err(Failure::Capture)?;
    let mut held = Vec::new(rt.alloc());
    // A capture that cannot be read gets no titles.
    let mut length = read_piece(&mut capture, &mut held).map_err(Failure::Capture)?;
    let mut listing = Listing::new(BufWriter::new(rt.alloc(), rt.stdout())?, bands)?;
    // Kept: every loop must end, so this one counts.
    for _ in 0..u64::MAX {
        if length == 0 {
            break;
        }
        held = listing.show(&held, false)?.to_vec(rt.alloc())?;
        length = read_piece(&mut capture, &mut held).map_err(Failure::Capture)?;
    }
    listing.show(&held, true)?;
    listing.close()?;
    Ok(())
}

/// Adds the next piece of a capture to `held`, and answers its length: 0 at the end.
fn read_piece(capture: &mut File, held: &mut Vec<u8>) -> io::Result<usize> {
    // Kept: one read for a piece, so that the lines that come over a pipe are shown at once; `read_to_end` would wait.
    let mut piece = [0; PIECE];
    // Kept: every loop must end, so this one counts.
    for _ in 0..u64::MAX {
        match capture.read(&mut piece) {
            Ok(length) => {
                held.extend_from_slice(&piece[..length])?;
                return Ok(length);
            }
            Err(error) if error.kind() == ErrorKind::Interrupted => {}
            Err(error) => return Err(error),
        }
    }
    Ok(0)
}

/// The rows of a capture as they are printed, and the count of what they show.
#[derive(Drop)]
struct Listing<W> {
    out: W,
    bands: bool,
    totals: Totals,
}

impl<W: Write + Drop> Listing<W> {
    /// A listing that has its titles; `bands` says whether it has a column for bands.
    fn new(mut out: W, bands: bool) -> io::Result<Listing<W>> {
        out.writeln(Titles { bands })?;
        Ok(Listing {
            out,
            bands,
            totals: Totals::default(),
        })
    }

    /// Shows what `bytes` hold, entry by entry, and answers the bytes that begin no entry yet; `at_end` says that no more come.
    #[tactic(auto, using(crate::proofs::Pieces::end_behind, crate::proofs::Pieces::none_left))]
    fn show<'a>(&mut self, bytes: &'a [u8], at_end: bool) -> io::Result<&'a [u8]>
        ensures { IfOk result (λ rest. IsEnd rest.now bytes.now) }
    {
        let mut entries = Entries::new(bytes, at_end);
        while !self.totals.gives_up() {
            let Some(entry) = entries.next() else {
                return Ok(entries.rest());
            };
            self.show_entry(entry)?;
        }
        self.totals.leave(entries.rest().len());
        Ok(&[])
    }

    fn show_entry(&mut self, entry: Entry<'_>) -> io::Result<()> {
        self.out.writeln(Row {
            offset: self.totals.bytes,
            entry,
            bands: self.bands,
        })?;
        self.totals.add(&entry);
        Ok(())
    }

    /// Closes the listing with the count.
    fn close(mut self) -> io::Result<()> {
        self.out.write_fmt(Closing(self.totals))?;
        self.out.flush()
    }
}
