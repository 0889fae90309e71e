//! What the arguments ask for.
ghost use Rattle.std.specs.Prelude.{◌≡◌, map, string_bytes};
ghost use Rattle.lines.specs.Meaning.{answered};
ghost use Rattle.pktline.specs.Arguments.{asked, asked_show, asked_file, starts_option, asked_of, misuse_of};

use std::fmt;

/// What the program is to do.
#[derive(Clone, Copy, Debug, PartialEq, Eq, Hash)]
pub enum Command<'a> {
    /// Say how the program is used.
    Help,
    /// Show the lines of a capture.
    Show {
        /// The path of the capture.
        file: &'a str,
        /// Whether the first byte of each payload is its band.
        bands: bool,
    },
}

/// Why the arguments ask for nothing that the program does.
#[derive(Clone, Copy, Debug, PartialEq, Eq, Hash)]
pub enum Misuse<'a> {
    /// No such command.
    UnknownCommand(&'a str),
    /// No such option.
    UnknownOption(&'a str),
    /// No file is named.
    NoFile,
    /// This word is one too many.
    Unexpected(&'a str),
}

impl fmt::Display for Misuse<'_> {
    fn fmt<W: fmt::Write>(&self, f: &mut fmt::Formatter<W>) -> fmt::Result {
        match self {
            Misuse::UnknownCommand(word) => write!(f, "there is no command '{word}'"),
            Misuse::UnknownOption(word) => write!(f, "there is no option '{word}'"),
            Misuse::NoFile => f.write_str("no file is named"),
            Misuse::Unexpected(word) => write!(f, "'{word}' is one argument too many"),
        }
    }
}

/// The command that the words after the program's name make.
pub fn parse(words: &[String]) -> Result<Command<'_>, Misuse<'_>>
    ensures { answered asked_of misuse_of result ≡ asked (map string_bytes words.now) }
{
    let Some((verb, rest)) = words.split_first() else {
        return Ok(Command::Help);
    };
    match verb.as_str() {
        "help" | "--help" | "-h" => Ok(Command::Help),
        "show" => show_command(rest),
        other => Err(Misuse::UnknownCommand(other)),
    }
}

fn show_command(words: &[String]) -> Result<Command<'_>, Misuse<'_>>
    ensures { answered asked_of misuse_of result ≡ asked_show (map string_bytes words.now) }
{
    match words {
        [first, rest @ ..] if first.as_str() == "--bands" => file_command(rest, true),
        _ => file_command(words, false),
    }
}

fn file_command(words: &[String], bands: bool) -> Result<Command<'_>, Misuse<'_>>
    ensures { answered asked_of misuse_of result ≡ asked_file (map string_bytes words.now) bands }
{
    match words {
        [] => Err(Misuse::NoFile),
        [word, ..] if is_option(word.as_str()) => Err(Misuse::UnknownOption(word.as_str())),
        [file] => Ok(Command::Show {
            file: file.as_str(),
            bands,
        }),
        [_, extra, ..] => Err(Misuse::Unexpected(extra.as_str())),
    }
}

fn is_option(word: &str) -> bool
    ensures { result ≡ starts_option word.now }
{
    word.starts_with('-')
}
