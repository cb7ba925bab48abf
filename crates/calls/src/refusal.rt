// Why a call is not done.
ghost use Rattle.std.specs.Prelude.{◌≡◌, Some};
ghost use Rattle.calls.specs.Refusals.{open_refusal, gate_refusal, refusal_number};
ghost use Rattle.calls.specs.Texts.{missing_text, refusal_text};
ghost use Rattle.calls.specs.declared.refusal.Refusal.TheVariants.{Flow as FlowIs, Certificate as CertificateIs, OutOfMemory};

use gates::refusal::GateRefusal;
use schedule::refusal::{CertificateRefusal, Fault, FlowRefusal, OpenRefusal};
use std::alloc::AllocError;
use std::error::Error;
use std::fmt;

/// What a call stands in need of and did not find.
#[derive(Clone, Copy, Debug, PartialEq, Eq)]
pub enum Missing {
    Draft,
    CheckedPlan,
}

/// Why a call is not done. Want of memory is no fault of the call, and stands apart whichever call it befalls.
#[derive(Clone, Copy, Debug, PartialEq, Eq)]
pub enum Refusal {
    Open(OpenRefusal),
    Flow(FlowRefusal),
    Certificate(CertificateRefusal),
    Gates(GateRefusal),
    Faulty(Fault),
    OutOfOrder(Missing),
    OutOfMemory,
}

impl Refusal {
    /// The number of the refusal, as it is printed; a call out of order and want of memory have none.
    pub fn number(self) -> Option<u8>
        ensures { result ≡ refusal_number self }
    {
        match self {
            Refusal::Open(refusal) => refusal.number(),
            Refusal::Flow(refusal) => Some(refusal.number()),
            Refusal::Certificate(refusal) => Some(refusal.number()),
            Refusal::Gates(refusal) => refusal.number(),
            Refusal::Faulty(fault) => Some(fault.number()),
            Refusal::OutOfOrder(_) | Refusal::OutOfMemory => None,
        }
    }
}

impl fmt::Display for Missing {
    ghost output = { λ m. Some (missing_text m) };

    fn fmt<W: fmt::Write>(&self, f: &mut fmt::Formatter<W>) -> fmt::Result {
        f.write_str(match self {
            Missing::Draft => "no draft",
            Missing::CheckedPlan => "no checked plan",
        })
    }
}

impl fmt::Display for Refusal {
    ghost output = { λ r. Some (refusal_text r) };

    fn fmt<W: fmt::Write>(&self, f: &mut fmt::Formatter<W>) -> fmt::Result {
        match self {
            Refusal::OutOfOrder(missing) => write!(f, "out of order: {missing}"),
            Refusal::Faulty(fault) => {
                let number = fault.number();
                let (flow, hop) = fault.place();
                write!(f, "refused {number} flow {flow} hop {hop}")
            }
            _ => match self.number() {
                Some(number) => write!(f, "refused {number}"),
                None => f.write_str("out of memory"),
            },
        }
    }
}

impl Error for Refusal {}

// Written out, since contracts name which refusal each becomes (`from_gives`): what a derive writes has no such clause.
impl From<OpenRefusal> for Refusal {
    ghost from_gives = { λ x r. r ≡ open_refusal x };

    fn from(why: OpenRefusal) -> Refusal {
        match why {
            OpenRefusal::OutOfMemory => Refusal::OutOfMemory,
            _ => Refusal::Open(why),
        }
    }
}

impl From<FlowRefusal> for Refusal {
    ghost from_gives = { λ x r. r ≡ FlowIs x };

    fn from(why: FlowRefusal) -> Refusal {
        Refusal::Flow(why)
    }
}

impl From<CertificateRefusal> for Refusal {
    ghost from_gives = { λ x r. r ≡ CertificateIs x };

    fn from(why: CertificateRefusal) -> Refusal {
        Refusal::Certificate(why)
    }
}

impl From<GateRefusal> for Refusal {
    ghost from_gives = { λ x r. r ≡ gate_refusal x };

    fn from(why: GateRefusal) -> Refusal {
        match why {
            GateRefusal::OutOfMemory => Refusal::OutOfMemory,
            GateRefusal::AbsentPort => Refusal::Gates(why),
        }
    }
}

impl From<AllocError> for Refusal {
    ghost from_gives = { λ _ r. r ≡ OutOfMemory };

    fn from(_e: AllocError) -> Refusal {
        Refusal::OutOfMemory
    }
}
