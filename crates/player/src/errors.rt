// Why a file is not played to its end.
use std::{fmt, io};

// The lines are counted from 0.
#[derive(Debug, Drop)]
pub enum Error {
    NoLimits { line: u64 },
    Limits { line: u64, closed: u64, open: u64 },
    NoMemory { line: u64 },
    Io(io::Error),
}

impl From<io::Error> for Error {
    fn from(error: io::Error) -> Error {
        Error::Io(error)
    }
}

impl fmt::Display for Error {
    fn fmt<W: fmt::Write>(&self, f: &mut fmt::Formatter<W>) -> fmt::Result {
        match self {
            Error::NoLimits { line } => write!(f, "line {line}: expected 'limits CLOSED OPEN'"),
            Error::Limits { line, closed, open } => write!(
                f,
                "line {line}: limits {closed} {open} are out of range: expected 2 to 4096 closed pages,
                and at most 1048576 open ones"
            ),
            Error::NoMemory { line } => {
                write!(f, "line {line}: not enough memory for so many pages")
            }
            Error::Io(error) => write!(f, "{error}"),
        }
    }
}

// What a program ends with, if it doesn't do what it is asked: the message is printed by then.
#[derive(Debug, Drop)]
pub struct Failed;
