// Why there is no gate list.
ghost use Rattle.std.specs.Prelude.{◌≡◌};
ghost use Rattle.gates.specs.Numbers.{gate_number};
ghost use Rattle.gates.specs.declared.refusal.GateRefusal.TheVariants.{OutOfMemory};

use std::alloc::AllocError;

/// Why a gate list was not made.
#[derive(Clone, Copy, Debug, PartialEq, Eq)]
pub enum GateRefusal {
    AbsentPort,
    OutOfMemory,
}

// Written out, since contracts name what it gives (`from_gives`): what a derive writes has no such clause.
impl From<AllocError> for GateRefusal {
    ghost from_gives = { λ _ r. r ≡ OutOfMemory };

    fn from(_e: AllocError) -> GateRefusal {
        GateRefusal::OutOfMemory
    }
}

impl GateRefusal {
    /// The number of the refusal, as it is printed; want of memory has none.
    pub fn number(self) -> Option<u8>
        ensures { result ≡ gate_number self }
    {
        match self {
            GateRefusal::AbsentPort => Some(21),
            GateRefusal::OutOfMemory => None,
        }
    }
}
