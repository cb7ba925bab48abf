// The octet at a local tick, and for how long a gate stays open.
ghost use Rattle.std.specs.Prelude.{◌≡◌};
ghost use Rattle.gates.specs.Timetable.{open_for};
ghost use Rattle.gates.specs.Lookup.{octets, octets_with, span_at, span_with, open_ticks, Stays, Counts};

use super::{Rotation, Timetable};
use crate::span::Span;

impl Rotation {
    // What holds at a local tick with a next list.
    #[tactic(auto, using(crate::proofs::Changes::span_after, crate::proofs::Changes::span_held, crate::proofs::Changes::span_first))]
    fn span_across(&self, next: &Rotation, l: u64) -> Span
        ensures { result ≡ span_with self.now (Some next.now) l }
    {
        if l >= next.base {
            return next.span(l);
        }
        let hold = self.hold_from(next.base);
        if l >= hold {
            return Span {
                octet: self.list.last().octet,
                ticks: next.base - l,
            };
        }
        let span = self.span(l);
        Span {
            octet: span.octet,
            ticks: span.ticks.min(hold - l),
        }
    }

    // The open ticks from a local tick on with a next list: those of the first list, of the hold, and of the next list.
    // Tick, class and bound stay three parameters: each part asks from another tick and for fewer, so a struct would be made anew at each.
    fn open_across(&self, next: &Rotation, l: u64, class: u8, most: u64) -> u64
        ensures { Counts (octets_with self.now (Some next.now)) l class most result }
    {
        if l >= next.base {
            return next.open_ticks(l, class, most);
        }
        let hold = self.hold_from(next.base);
        let turning = hold.saturating_sub(l).min(most);
        let open = self.open_ticks(l, class, turning);
        if open < turning {
            return open;
        }
        let held = (next.base - (l + turning)).min(most - turning);
        if held > 0 && !self.list.last().is_open(class) {
            return turning;
        }
        let rest = most - turning - held;
        turning + held + next.open_ticks(next.base, class, rest)
    }
}

impl Timetable {
    /// The octet at a local tick, and the ticks from there to where another entry, the hold or the next list begins.
    #[tactic(auto, using(crate::proofs::Rounds::list_stays, crate::proofs::Changes::lists_stays), unfolding(crate::specs::Lookup::octets, crate::specs::Lookup::span_at))]
    pub fn span(&self, l: u64) -> Span
        ensures is { result ≡ span_at self.now l }
        ensures stays { Stays (octets self.now) l result }
    {
        match &self.next {
            Some(next) => self.current.span_across(next, l),
            None => self.current.span(l),
        }
    }

    /// The octet at a local tick.
    pub fn octet(&self, l: u64) -> u8
        ensures { result ≡ octets self.now l }
    {
        self.span(l).octet
    }

    /// For how many ticks from a local tick on the gate of a class stays open, at most as many as asked.
    #[tactic(auto, unfolding(crate::specs::Lookup::octets))]
    pub fn open_ticks(&self, l: u64, class: u8, most: u64) -> u64
        ensures { Counts (octets self.now) l class most result }
    {
        match &self.next {
            Some(next) => self.current.open_across(next, l, class, most),
            None => self.current.open_ticks(l, class, most),
        }
    }

    /// Whether the gate of a class is open at each of w local ticks; above 7 there is no gate.
    pub fn open_for(&self, l: u64, class: u8, w: u64) -> bool
        ensures { result ≡ open_for (octets self.now) l class w }
    {
        self.open_ticks(l, class, w) == w
    }
}
