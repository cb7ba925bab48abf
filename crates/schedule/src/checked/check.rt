// The check, from a draft to a checked plan.
ghost use Rattle.std.specs.Prelude.{◌≡◌, true, is_ok, MatchOption};
ghost use Rattle.schedule.specs.Rules.{Good, FirstFault};
ghost use Rattle.schedule.specs.Drafts.{plan_of};
ghost use Rattle.schedule.specs.Checks.{Checks};

use super::CheckedPlan;
use crate::draft::Draft;
use crate::refusal::Fault;

impl Draft {
    // Flows and hops by number, at a hop the rules in order.
    fn first_fault(&self) -> Option<Fault>
        ensures { MatchOption result (Good (plan_of self.now)) (FirstFault (plan_of self.now)) }
    {
        // `find_map` was tried: after it the proof of what is returned stays open (`returns`)
        for flow in 0..self.flows.len() {
            if let Some((hop, rule)) = self.broken_hop(flow) {
                return Some(Fault {
                    rule,
                    flow,
                    hop: hop.hop,
                });
            }
        }
        None
    }

    /// Passes exactly when the draft keeps the rules; else gives it back with its first fault.
    pub fn check(self) -> Result<CheckedPlan, (Fault, Draft)>
        ensures reply { Checks self result }
        ensures exactly { Good (plan_of self) → is_ok result ≡ true }
    {
        match self.first_fault() {
            Some(fault) => Err((fault, self)),
            None => Ok(CheckedPlan { draft: self }),
        }
    }
}
