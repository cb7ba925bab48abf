// Making the gate list of a port.
ghost use Rattle.std.specs.Prelude.{◌≡◌, ◌≤◌, [], vec_capacity};
ghost use Rattle.schedule.specs.Checks.{checked_plan};
ghost use Rattle.gates.specs.Makes.{Lists, Makes};

use super::GateList;
use super::stretch::stretch_from;
use crate::entry::GateEntry;
use crate::refusal::GateRefusal;
use schedule::checked::CheckedPlan;
use std::alloc::Global;

/// The most entries of a gate list: three for each of 16 windows, and one behind.
pub const MAX_ENTRIES: usize = 49;

impl GateList {
    // Fills an empty table. It goes from change to change, so its cost does not grow with the cycle.
    #[tactic(auto, using(crate::proofs::Edges::until_gt))]
    fn fill(mut entries: Vec<GateEntry>, plan: &CheckedPlan, port: usize) -> GateList
        requires { (entries.items ≡ []) × (MAX_ENTRIES ≤ vec_capacity entries) }
        ensures { Lists (checked_plan plan.now) port result }
    {
        let cycle = u64::from(plan.cycle());
        let mut begun = 0;
        let mut stretch = stretch_from(plan, port, 0);
        while stretch.until < cycle {
            let edge = stretch.until;
            let octet = stretch.octet;
            stretch = stretch_from(plan, port, edge);
            if stretch.octet == octet {
                continue;
            }
            // No `try_from`: it is proved that a tick of the cycle fits, and there is no error to hand on.
            let ticks = (edge - begun) as u32;
            entries.push_reserved(GateEntry { octet, ticks });
            begun = edge;
        }
        let ticks = (cycle - begun) as u32;
        entries.push_reserved(GateEntry {
            octet: stretch.octet,
            ticks,
        });
        GateList {
            cycle: plan.cycle(),
            entries,
        }
    }

    /// The gate list of a port of a checked plan, in the memory of this one. A port that is not there has no window.
    pub fn remade(self, plan: &CheckedPlan, port: usize) -> GateList
        ensures { Lists (checked_plan plan.now) port result }
    {
        let GateList {
            cycle: _,
            mut entries,
        } = self;
        entries.clear();
        GateList::fill(entries, plan, port)
    }

    /// The gate list of a port of a checked plan.
    pub fn of_port(heap: Global, plan: &CheckedPlan, port: usize) -> Result<GateList, GateRefusal>
        ensures { Makes (checked_plan plan.now) port result }
    {
        if port >= plan.ports().len() {
            return Err(GateRefusal::AbsentPort);
        }
        let entries = Vec::with_capacity(heap, MAX_ENTRIES)?;
        Ok(GateList::fill(entries, plan, port))
    }

    pub fn cycle(&self) -> u32
        ensures { result ≡ self.now.cycle }
    {
        self.cycle
    }

    pub fn entries(&self) -> &[GateEntry]
        ensures { result.now ≡ self.now.entries.items }
    {
        self.entries.as_slice()
    }
}
