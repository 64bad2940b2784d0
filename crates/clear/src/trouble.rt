// Why the program has no answer, in the words that standard error is told.
use std::alloc::AllocError;
use std::io;
use thiserror::Error;

#[derive(Debug, Drop, Error)]
pub(crate) enum Trouble {
    #[error("usage: clear [FILE]")]
    Usage,
    #[error("clear: can't read the arguments: {0}")]
    Arguments(io::Error),
    #[error("clear: can't read {path}: {error}")]
    File { path: String, error: io::Error },
    #[error("clear: can't read standard input: {0}")]
    Input(io::Error),
    #[error("clear: there is not enough memory for the file")]
    Memory(#[from] AllocError),
}
