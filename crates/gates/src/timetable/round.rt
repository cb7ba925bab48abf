// One gate list that goes round: what holds at a local tick, and for how long a gate stays open.
ghost use Rattle.std.specs.Prelude.{◌≡◌, ◌-◌, ◌%◌};
ghost use Rattle.gates.specs.Lookup.{held_from, rotation_octet, rotation_span, Counts};

use super::Rotation;
use crate::span::Span;

impl Rotation {
    // How far into its round a local tick is.
    fn into_round(&self, l: u64) -> u64
        ensures { result ≡ (l - self.now.base) % self.now.list.cycle }
    {
        l.saturating_sub(self.base) % u64::from(self.list.cycle())
    }

    /// The octet at a local tick, and the ticks from there to the end of its entry, or to the base.
    #[tactic(auto, using(crate::proofs::Rounds::span_before, crate::proofs::Rounds::span_round))]
    pub(crate) fn span(&self, l: u64) -> Span
        ensures { result ≡ rotation_span self.now l }
    {
        if l < self.base {
            return Span {
                octet: 0,
                ticks: self.base - l,
            };
        }
        self.list.span(self.into_round(l))
    }

    /// For how many ticks from a local tick on a gate stays open, at most as many as asked.
    pub(crate) fn open_ticks(&self, l: u64, class: u8, most: u64) -> u64
        ensures { Counts (rotation_octet self.now) l class most result }
    {
        if l < self.base {
            return 0;
        }
        self.list.open_ticks(self.into_round(l), class, most)
    }

    /// The tick from which the last octet is held until a tick.
    pub(crate) fn hold_from(&self, until: u64) -> u64
        ensures { result ≡ held_from self.now.list.cycle self.now.base until }
    {
        until - self.into_round(until)
    }
}
