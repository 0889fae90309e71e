//! Replays a script of calls from standard input, and prints each answer.
#![tactic(auto)]

mod answer;
mod run;
mod script;
mod terms;

use crate::run::answer_to;
use crate::script::{ScriptFault, Step, parse_step};
use std::io::{BufRead, BufReader, BufWriter, Write};
use std::process::ExitCode;
use std::{fmt, io};

/// Why a script was not replayed to its end.
#[derive(Debug, Drop)]
enum Failure {
    /// This line of it cannot be read.
    Input(u64, io::Error),
    /// This line of it is no step.
    Script(u64, ScriptFault),
    /// An answer cannot be written.
    Output(io::Error),
}

impl From<io::Error> for Failure {
    fn from(e: io::Error) -> Failure {
        Failure::Output(e)
    }
}

impl fmt::Display for Failure {
    fn fmt<W: fmt::Write>(&self, f: &mut fmt::Formatter<W>) -> fmt::Result {
        match self {
            Failure::Input(number, e) => write!(f, "line {number}: {e}"),
            Failure::Script(number, fault) => write!(f, "line {number}: {fault}"),
            Failure::Output(e) => write!(f, "standard output: {e}"),
        }
    }
}

/// Says on standard error why a script was not replayed to its end.
fn main(rt: HostRuntime) -> ExitCode {
    match replay(&rt) {
        Ok(()) => ExitCode::SUCCESS,
        Err(failure) => {
            let _ = eprintln!(rt; "replay: {failure}");
            ExitCode::FAILURE
        }
    }
}

/// Replays the script on standard input, of which it holds one line at a time.
fn replay(rt: &HostRuntime) -> Result<(), Failure> {
    let heap = rt.alloc();
    let mut out = BufWriter::new(heap, rt.stdout())?;
    let script = BufReader::new(heap, rt.stdin()).map_err(|e| Failure::Input(1, e))?;
    for (number, line) in (1u64..).zip(script.lines(heap)) {
        let line = line.map_err(|e| Failure::Input(number, e))?;
        match parse_step(heap, line.as_str()).map_err(|fault| Failure::Script(number, fault))? {
            Step::Nothing => {}
            Step::Case(name) => writeln!(out, "case {name}")?,
            Step::Call(name, call) => match answer_to(&call) {
                Ok(answer) => writeln!(out, "{number} {name} -> {answer}")?,
                Err(refusal) => writeln!(out, "{number} {name} -> no {refusal}")?,
            },
        }
    }
    out.flush()?;
    Ok(())
}
