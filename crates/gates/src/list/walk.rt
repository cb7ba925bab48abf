// Walks over the entries of a gate list. Each stops elsewhere and counts something else, so that one walk for both would take what it does from outside.
ghost use Rattle.std.specs.Prelude.{◌≡◌, ◌-◌, ◌<◌, length, slice_index_or};
ghost use Rattle.gates.specs.Lists.{no_entry};
ghost use Rattle.gates.specs.Lookup.{round_octet, entry_span, entry_open, Counts};

use super::GateList;
use crate::entry::GateEntry;
use crate::span::Span;

impl GateList {
    /// The last entry.
    pub(crate) fn last(&self) -> GateEntry
        ensures { result ≡ slice_index_or self.now.entries.items (length self.now.entries.items - 1) no_entry }
    {
        // by index: the type says that there is an entry, so that no other has to be made up
        let entries = self.entries();
        entries[entries.len() - 1]
    }

    /// The entry in which a tick falls, counted from the begin of the first.
    pub(crate) fn span(&self, tick: u64) -> Span
        ensures { result ≡ entry_span self.now.entries.items tick }
    {
        let mut left = tick;
        for entry in self.entries() {
            let ticks = u64::from(entry.ticks);
            if left < ticks {
                return Span {
                    octet: entry.octet,
                    ticks: ticks - left,
                };
            }
            left -= ticks;
        }
        Span { octet: 0, ticks: 0 }
    }

    // The open ticks of a class from a tick on, to the first entry that shuts it or to the end.
    #[tactic(auto, using(crate::proofs::Rounds::open_most))]
    fn open_to_end(&self, tick: u64, class: u8) -> u64
        ensures { result ≡ entry_open self.now.entries.items tick class }
    {
        let mut left = tick;
        let mut open = 0;
        for entry in self.entries() {
            let ticks = u64::from(entry.ticks);
            if left >= ticks {
                left -= ticks;
                continue;
            }
            if !entry.is_open(class) {
                return open;
            }
            open += ticks - left;
            left = 0;
        }
        open
    }

    /// The open ticks from a tick of the cycle on, going round, at most as many as asked. A round without a closed entry never has one.
    #[tactic(auto, using(crate::proofs::Rounds::open_most))]
    pub(crate) fn open_ticks(&self, tick: u64, class: u8, most: u64) -> u64
        requires { tick < self.now.cycle }
        ensures { Counts (round_octet self.now.entries.items self.now.cycle) tick class most result }
    {
        let cycle = u64::from(self.cycle);
        let rest = cycle - tick;
        let open = self.open_to_end(tick, class);
        if open < rest {
            return open.min(most);
        }
        let round = self.open_to_end(0, class);
        if round == cycle {
            return most;
        }
        (rest + round).min(most)
    }
}
