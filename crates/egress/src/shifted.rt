// A clock that is ahead or behind by a fixed number of ticks.
ghost use Rattle.std.specs.Prelude.{◌≡◌, ℕ, ◌≤◌, ℤ, pos, negsuc, ◌≤ℤ◌};
ghost use Rattle.egress.specs.Times.{upto, moved_by, size};
ghost use Rattle.egress.specs.ClockLemmas.{moved_near};

use crate::clock::{Clock, up_to_horizon};
use crate::setting::Refused;

// The greatest shift, ahead or behind.
const MOST_SHIFT: i16 = 125;

/// The reading is ahead by this many ticks.
#[derive(Clone, Copy)]
pub struct Shifted {
    by: i16,
    ghost limited: { (negsuc 124 ≤ℤ by) × (by ≤ℤ pos 125) },
}

impl Shifted {
    ghost use Rattle.egress.specs.Settings.{MadeShifted};

    /// A clock that is ahead by −125 to 125 ticks.
    pub fn new(by: i16) -> Result<Shifted, Refused>
        ensures { MadeShifted by result }
    {
        if (-MOST_SHIFT..=MOST_SHIFT).contains(&by) {
            Ok(Shifted { by })
        } else {
            Err(Refused::Shift(by))
        }
    }
}

impl Clock for Shifted {
    ghost reading = { λ c t. moved_by c.by (upto t) };

    ghost bound = { λ c. size c.by };

    ghost near = { λ c. moved_near c.by };

    fn read(&self, t: u64) -> u64 {
        up_to_horizon(t).saturating_add_signed(i64::from(self.by))
    }

    fn error_bound(&self) -> u64 {
        u64::from(self.by.unsigned_abs())
    }
}
