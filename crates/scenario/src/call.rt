//! What a line of a scenario asks for, and what is wrong with a line that asks for nothing.
ghost use Rattle.std.specs.Prelude.{◌≡◌, Some};
ghost use Rattle.scenario.specs.declared.call.Problem.TheVariants.{OutOfMemory};
ghost use Rattle.scenario.specs.Wording.{wording};

use std::alloc::{AllocError, AllocFailed};
use std::error::Error;
use std::fmt;

/// What placing and adding a flow ask for alike: its numbers, and the ports of its route in order.
#[derive(Drop)]
pub struct FlowNumbers {
    pub release: u64,
    pub octets: u64,
    pub deadline: u64,
    pub route: Vec<u64>,
}

/// A call of a scenario. Times are ticks; ports and flows go by number.
// The settings of `Open` are no struct: no other call has them.
#[derive(Drop)]
pub enum Call {
    Open {
        cycle: u64,
        error: u64,
        extension: u64,
        delays: Vec<u64>,
    },
    Place(FlowNumbers),
    Add {
        flow: FlowNumbers,
        offsets: Vec<u64>,
    },
    Check,
    Certificate {
        flow: u64,
    },
    Gates {
        port: u64,
    },
}

/// Why a line is no call. Want of memory is no fault of the line.
#[derive(Clone, Copy, Debug, PartialEq, Eq)]
pub enum Problem {
    UnknownCall,
    MissingWord,
    UnexpectedWord,
    NotANumber,
    NumberTooLarge,
    OutOfMemory,
}

impl fmt::Display for Problem {
    ghost output = { λ p. Some (wording p) };

    fn fmt<W: fmt::Write>(&self, f: &mut fmt::Formatter<W>) -> fmt::Result {
        f.write_str(match self {
            Problem::UnknownCall => "unknown call",
            Problem::MissingWord => "a word is missing",
            Problem::UnexpectedWord => "a word that does not belong there",
            Problem::NotANumber => "not a number",
            Problem::NumberTooLarge => "a number that does not fit 64 bits",
            Problem::OutOfMemory => "out of memory",
        })
    }
}

impl Error for Problem {}

// Both are written out, since contracts name what they give (`from_gives`): what a derive writes has no such clause.
impl From<AllocError> for Problem {
    ghost from_gives = { λ _ r. r ≡ OutOfMemory };

    fn from(_e: AllocError) -> Problem {
        Problem::OutOfMemory
    }
}

impl<T: Drop> From<AllocFailed<T>> for Problem {
    ghost from_gives = { λ _ r. r ≡ OutOfMemory };

    fn from(_e: AllocFailed<T>) -> Problem {
        Problem::OutOfMemory
    }
}
