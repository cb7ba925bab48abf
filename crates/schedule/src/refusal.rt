// Why a call is refused, and why a draft fails the check.
ghost use Rattle.std.specs.Prelude.{◌≡◌};
ghost use Rattle.schedule.specs.Numbers.{open_number, flow_number, certificate_number, rule_number, fault_number, fault_place};
ghost use Rattle.schedule.specs.declared.refusal.OpenRefusal.TheVariants.{OutOfMemory};

use std::alloc::AllocError;

/// Why a draft was not opened.
#[derive(Clone, Copy, Debug, PartialEq, Eq)]
pub enum OpenRefusal {
    TimingBeyondLimits,
    PortsBeyondLimits,
    OutOfMemory,
}

/// Why a flow did not enter a draft.
#[derive(Clone, Copy, Debug, PartialEq, Eq)]
pub enum FlowRefusal {
    DraftFull,
    FlowBeyondLimits,
    BadRoute,
    NoOffsets,
    BadOffsets,
}

/// Why a plan has no such certificate.
#[derive(Clone, Copy, Debug, PartialEq, Eq)]
pub enum CertificateRefusal {
    AbsentFlow,
}

/// A rule of a plan, by the way in which it is broken.
#[derive(Clone, Copy, Debug, PartialEq, Eq)]
pub enum BrokenRule {
    OffsetTooEarly,
    EndTooLate,
    ReachTooLate,
    DeliveryPastCycle,
    DeadlineMissed,
    WindowsTooClose,
}

/// The first rule that a draft breaks, with the flow and the hop.
#[derive(Clone, Copy, Debug, PartialEq, Eq)]
pub struct Fault {
    pub rule: BrokenRule,
    pub flow: usize,
    pub hop: usize,
}

// Written out, since contracts name what it gives (`from_gives`): what a derive writes has no such clause.
impl From<AllocError> for OpenRefusal {
    ghost from_gives = { λ _ r. r ≡ OutOfMemory };

    fn from(_e: AllocError) -> OpenRefusal {
        OpenRefusal::OutOfMemory
    }
}

impl OpenRefusal {
    /// The number of the refusal, as it is printed; want of memory has none.
    pub fn number(self) -> Option<u8>
        ensures { result ≡ open_number self }
    {
        match self {
            OpenRefusal::TimingBeyondLimits => Some(6),
            OpenRefusal::PortsBeyondLimits => Some(7),
            OpenRefusal::OutOfMemory => None,
        }
    }
}

impl FlowRefusal {
    /// The number of the refusal, as it is printed.
    pub fn number(self) -> u8
        ensures { result ≡ flow_number self }
    {
        match self {
            FlowRefusal::DraftFull => 1,
            FlowRefusal::FlowBeyondLimits => 2,
            FlowRefusal::BadRoute => 3,
            FlowRefusal::NoOffsets => 4,
            FlowRefusal::BadOffsets => 5,
        }
    }
}

impl CertificateRefusal {
    /// The number of the refusal, as it is printed.
    pub fn number(self) -> u8
        ensures { result ≡ certificate_number self }
    {
        match self {
            CertificateRefusal::AbsentFlow => 22,
        }
    }
}

impl BrokenRule {
    /// The number of the rule, as it is printed.
    pub fn number(self) -> u8
        ensures { result ≡ rule_number self }
    {
        match self {
            BrokenRule::OffsetTooEarly => 11,
            BrokenRule::EndTooLate => 12,
            BrokenRule::ReachTooLate => 13,
            BrokenRule::DeliveryPastCycle => 14,
            BrokenRule::DeadlineMissed => 15,
            BrokenRule::WindowsTooClose => 16,
        }
    }
}

impl Fault {
    /// The number of the rule, as it is printed.
    pub fn number(self) -> u8
        ensures { result ≡ fault_number self }
    {
        self.rule.number()
    }

    /// The flow and the hop at which the rule is broken.
    pub fn place(self) -> (usize, usize)
        ensures { result ≡ fault_place self }
    {
        (self.flow, self.hop)
    }
}
