// Clocks: what a port reads at each true tick.
ghost use Rattle.std.specs.Prelude.{◌≡◌, ℕ, ◌^◌, ◌≤◌};
ghost use Rattle.egress.specs.Times.{upto, Near};
ghost use Rattle.egress.specs.ClockLemmas.{exact_near};

// Past this tick every clock stands still.
const HORIZON: u64 = 1 << 48;

/// What a port reads at each true tick.
pub trait Clock {
    // the reading at each true tick
    ghost reading: { Self → ℕ → ℕ };

    // how far a reading may be off
    ghost bound: { Self → ℕ };

    /// The reading at the true tick t.
    fn read(&self, t: u64) -> u64
        ensures { result ≡ reading self.now t };

    /// The same as `bound`, for code.
    fn error_bound(&self) -> u64
        ensures { result ≡ bound self.now };

    ghost near: { (c : Self) (t : ℕ) → bound c ≤ t → t ≤ 2 ^ 48 → Near (bound c) t (reading c t) };
}

// The true tick, standing still past the horizon.
pub(crate) fn up_to_horizon(t: u64) -> u64
    ensures { result ≡ upto t }
{
    t.min(HORIZON)
}

/// Reads the true tick.
#[derive(Clone, Copy)]
pub struct Exact;

impl Clock for Exact {
    ghost reading = { λ _ t. upto t };

    ghost bound = { λ _. 0 };

    ghost near = { λ _ t _ h. exact_near t h };

    fn read(&self, t: u64) -> u64 {
        up_to_horizon(t)
    }

    fn error_bound(&self) -> u64 {
        0
    }
}
