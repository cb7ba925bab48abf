// Whether a hop keeps each of the rules.
ghost use Rattle.std.specs.Prelude.{◌≡◌, ℕ, ◌<◌, Decides, MatchOption};
ghost use Rattle.schedule.specs.Rules.{Guarded, EndsInCycle, ReachedInTime, DeliveredInCycle, MeetsDeadline, Apart, ApartFrom, StandsApart, KeepsRules, FlowKeeps, Breaks};
ghost use Rattle.schedule.specs.Plan.{flow_count};
ghost use Rattle.schedule.specs.Drafts.{plan_of};
ghost use Rattle.schedule.specs.Raising.{TooClose};

use super::Draft;
use super::hop::Hop;
use crate::refusal::BrokenRule;

impl<'a> Hop<'a> {
    fn is_guarded(&self) -> bool
        ensures { Decides result (Guarded (plan_of self.now.draft.now) self.now.flow self.now.hop) }
    {
        2 * self.draft.error <= self.window().offset
    }

    fn ends_in_cycle(&self) -> bool
        ensures { Decides result (EndsInCycle (plan_of self.now.draft.now) self.now.flow self.now.hop) }
    {
        self.end() + 2 * self.draft.error <= self.draft.cycle
    }

    fn is_reached_in_time(&self) -> bool
        ensures { Decides result (ReachedInTime (plan_of self.now.draft.now) self.now.flow self.now.hop) }
    {
        self.least_reached() <= self.window().offset
    }

    fn is_delivered_in_cycle(&self) -> bool
        ensures { Decides result (DeliveredInCycle (plan_of self.now.draft.now) self.now.flow self.now.hop) }
    {
        !self.is_last() || self.late_after() < self.draft.cycle
    }

    fn meets_deadline(&self) -> bool
        ensures { Decides result (MeetsDeadline (plan_of self.now.draft.now) self.now.flow self.now.hop) }
    {
        let flow = self.of_flow();
        !self.is_last() || self.late_after() <= flow.deadline + flow.release
    }

    // Whether two windows of one port stand apart.
    fn is_apart(&self, other: &Hop<'_>) -> bool
        requires { other.now.draft.now ≡ self.now.draft.now }
        ensures { Decides result (Apart (plan_of self.now.draft.now) self.now.flow self.now.hop other.now.flow other.now.hop) }
    {
        let ours = self.window().offset;
        let theirs = other.window().offset;
        if theirs < ours {
            return other.end() + 2 * self.draft.error <= self.early();
        }
        if ours < theirs {
            return self.end() + 2 * self.draft.error <= other.early();
        }
        false
    }

    // The first window of another flow that is too close.
    fn close_in_flow(&self, other: usize) -> Option<Hop<'a>>
        requires { other < self.now.flow }
        ensures { MatchOption result (ApartFrom (plan_of self.now.draft.now) self.now.flow self.now.hop other) (λ x. (x.draft.now ≡ self.now.draft.now) × (x.flow ≡ other) × TooClose (plan_of self.now.draft.now) self.now.flow self.now.hop other x.hop) }
    {
        let port = self.window().port;
        // no `find`, for the reason below
        for hop in 0..self.draft.flows[other].hops {
            let near = Hop {
                draft: self.draft,
                flow: other,
                hop,
            };
            if near.window().port == port && !self.is_apart(&near) {
                return Some(near);
            }
        }
        None
    }

    // The first window of a lower flow that is too close.
    pub(super) fn close_window(&self) -> Option<Hop<'a>>
        ensures { MatchOption result (StandsApart (plan_of self.now.draft.now) self.now.flow self.now.hop) (λ x. (x.draft.now ≡ self.now.draft.now) × TooClose (plan_of self.now.draft.now) self.now.flow self.now.hop x.flow x.hop) }
    {
        // `find_map` was tried: after it the proof of what is returned stays open (`returns`)
        for other in 0..self.flow {
            if let Some(near) = self.close_in_flow(other) {
                return Some(near);
            }
        }
        None
    }

    fn stands_apart(&self) -> bool
        ensures { Decides result (StandsApart (plan_of self.now.draft.now) self.now.flow self.now.hop) }
    {
        self.close_window().is_none()
    }

    // The first rule that the hop breaks.
    pub(crate) fn broken_rule(&self) -> Option<BrokenRule>
        ensures { MatchOption result (KeepsRules (plan_of self.now.draft.now) self.now.flow self.now.hop) (λ r. Breaks (plan_of self.now.draft.now) r self.now.flow self.now.hop) }
    {
        if !self.is_guarded() {
            return Some(BrokenRule::OffsetTooEarly);
        }
        if !self.ends_in_cycle() {
            return Some(BrokenRule::EndTooLate);
        }
        if !self.is_reached_in_time() {
            return Some(BrokenRule::ReachTooLate);
        }
        if !self.is_delivered_in_cycle() {
            return Some(BrokenRule::DeliveryPastCycle);
        }
        if !self.meets_deadline() {
            return Some(BrokenRule::DeadlineMissed);
        }
        if !self.stands_apart() {
            return Some(BrokenRule::WindowsTooClose);
        }
        None
    }
}

impl Draft {
    // The first hop of a flow that breaks a rule, with the first rule that it breaks.
    pub(crate) fn broken_hop(&self, flow: usize) -> Option<(Hop<'_>, BrokenRule)>
        requires { flow < flow_count (plan_of self.now) }
        ensures { MatchOption result (FlowKeeps (plan_of self.now) flow) (λ x. (x.0.draft.now ≡ self.now) × (x.0.flow ≡ flow) × Breaks (plan_of self.now) x.1 flow x.0.hop × ((h : ℕ) → h < x.0.hop → KeepsRules (plan_of self.now) flow h)) }
    {
        // no `find_map`, for the reason above
        for number in 0..self.flows[flow].hops {
            let hop = Hop {
                draft: self,
                flow,
                hop: number,
            };
            if let Some(rule) = hop.broken_rule() {
                return Some((hop, rule));
            }
        }
        None
    }
}
