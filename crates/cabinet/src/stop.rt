// Why a scenario ends before its last line.
use scenario::call::Problem;
use std::io;
use thiserror::Error;

/// What went wrong, and at which line where the line is at fault.
#[derive(Debug, Drop, Error)]
pub enum Stop {
    #[error("line {line}: {problem}")]
    NoCall { line: usize, problem: Problem },
    #[error("out of memory")]
    OutOfMemory,
    #[error("{0}")]
    Stream(#[from] io::Error),
}
