// A clock that drifts from behind to ahead in steps.
ghost use Rattle.std.specs.Prelude.{◌≡◌, ℕ, ◌<◌, ◌≤◌};
ghost use Rattle.egress.specs.Times.{upto, steps};
ghost use Rattle.egress.specs.ClockLemmas.{steps_near};

use crate::clock::{Clock, up_to_horizon};
use crate::setting::Refused;

const MOST_MARGIN: u16 = 125;

const MOST_PERIOD: u32 = 65_535;

/// The reading is at most the margin off, and takes a step once a period.
#[derive(Clone, Copy)]
pub struct Stepped {
    margin: u16,
    period: u32,
    ghost limited: { (margin ≤ 125) × (0 < period) × (period < 65536) },
}

impl Stepped {
    ghost use Rattle.egress.specs.Settings.{MadeStepped};

    /// A clock with a margin of 0 to 125 ticks and a period of 1 to 65,535.
    pub fn new(margin: u16, period: u32) -> Result<Stepped, Refused>
        ensures { MadeStepped margin period result }
    {
        if margin > MOST_MARGIN {
            return Err(Refused::Margin(margin));
        }
        if !(1..=MOST_PERIOD).contains(&period) {
            return Err(Refused::Period(period));
        }
        Ok(Stepped { margin, period })
    }
}

impl Clock for Stepped {
    ghost reading = { λ c t. steps c.margin c.period (upto t) };

    ghost bound = { λ c. c.margin };

    ghost near = { λ c. steps_near c.margin c.period };

    fn read(&self, t: u64) -> u64 {
        let t = up_to_horizon(t);
        let m = self.error_bound();
        t.saturating_sub(m) + (t / u64::from(self.period)) % (2 * m + 1)
    }

    fn error_bound(&self) -> u64 {
        u64::from(self.margin)
    }
}
