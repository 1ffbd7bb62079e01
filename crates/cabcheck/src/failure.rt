use call_list::{ListFault, Wrong};
use std::alloc::AllocError;
use std::{fmt, io};

// Why there is no answer to what was asked.
#[derive(Drop)]
pub enum Failure<'n> {
    Options(&'n anyhow::Error),
    Source {
        name: &'n str,
        error: io::Error,
    },
    BadLine {
        name: &'n str,
        line: usize,
        wrong: Wrong,
    },
    NoMemory,
    Output(io::Error),
}

impl<'n> Failure<'n> {
    pub fn of_list(name: &'n str, fault: ListFault) -> Failure<'n> {
        match fault {
            ListFault::Line { line, wrong } => Failure::BadLine { name, line, wrong },
            ListFault::NoMemory => Failure::NoMemory,
        }
    }

    // Whether the reader of the output has closed it. That is not said on standard error.
    pub fn is_closed_output(&self) -> bool {
        matches!(self, Failure::Output(error) if error.kind() == io::ErrorKind::BrokenPipe)
    }
}

impl fmt::Display for Failure<'_> {
    fn fmt<W: fmt::Write>(&self, f: &mut fmt::Formatter<W>) -> fmt::Result {
        match self {
            Failure::Options(error) => write!(f, "cabcheck: {error}"),
            Failure::Source { name, error } => write!(f, "cabcheck: {name}: {error}"),
            Failure::BadLine { name, line, wrong } => write!(f, "{name}:{line}: {wrong}"),
            Failure::NoMemory => f.write_str("cabcheck: not enough memory"),
            Failure::Output(error) => write!(f, "cabcheck: output: {error}"),
        }
    }
}

impl From<io::Error> for Failure<'_> {
    fn from(error: io::Error) -> Self {
        match error.kind() {
            io::ErrorKind::OutOfMemory => Failure::NoMemory,
            _ => Failure::Output(error),
        }
    }
}

impl From<AllocError> for Failure<'_> {
    fn from(_error: AllocError) -> Self {
        Failure::NoMemory
    }
}
