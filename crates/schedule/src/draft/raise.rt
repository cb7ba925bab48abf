// Raising the offsets of the last flow to the least with which it keeps the rules.
ghost use Rattle.std.specs.Prelude.{◌≡◌, ◌+◌, ◌<◌, MatchOption};
ghost use Rattle.schedule.specs.Plan.{HasHop, flow_count, flow_at, late_at};
ghost use Rattle.schedule.specs.Rules.{Breaks};
ghost use Rattle.schedule.specs.Drafts.{plan_of};
ghost use Rattle.schedule.specs.Raising.{retimed, MustRise, Hopeless, TooClose, Raises, set_offset};

use super::Draft;
use super::hop::Hop;
use crate::refusal::BrokenRule;

// The offset that has to rise, and the least that it can rise to.
#[derive(Clone, Copy)]
struct Raise {
    hop: usize,
    to: u32,
}

impl Hop<'_> {
    // Past a window that is too close: behind it where ours is not later, else so that the frame comes after it has ended.
    fn raise_past(&self, other: &Hop<'_>) -> Option<Raise>
        requires same { other.now.draft.now ≡ self.now.draft.now }
        requires close { TooClose (plan_of self.now.draft.now) self.now.flow self.now.hop other.now.flow other.now.hop }
        ensures { MatchOption result (Hopeless (plan_of self.now.draft.now) self.now.flow) (λ x. MustRise (plan_of self.now.draft.now) self.now.flow x.hop x.to) }
    {
        let theirs = other.window().offset;
        if self.window().offset <= theirs {
            return Some(Raise {
                hop: self.hop,
                to: theirs + 1,
            });
        }
        let before = self.before()?;
        let missing = other.end() + 2 * self.draft.error - self.early();
        Some(Raise {
            hop: before.hop,
            to: before.window().offset + missing,
        })
    }

    // The least offset with which the frame waits before its window can begin by any clock.
    pub(super) fn least_reached(&self) -> u32
        ensures { result ≡ late_at (plan_of self.now.draft.now) self.now.flow self.now.hop + self.now.draft.now.error }
    {
        self.late() + self.draft.error
    }

    // What the first rule that the hop breaks forces.
    fn forced_raise(&self, rule: BrokenRule) -> Option<Raise>
        requires { Breaks (plan_of self.now.draft.now) rule self.now.flow self.now.hop }
        ensures { MatchOption result (Hopeless (plan_of self.now.draft.now) self.now.flow) (λ x. MustRise (plan_of self.now.draft.now) self.now.flow x.hop x.to) }
    {
        match rule {
            BrokenRule::OffsetTooEarly => Some(Raise {
                hop: self.hop,
                to: 2 * self.draft.error,
            }),
            BrokenRule::ReachTooLate => Some(Raise {
                hop: self.hop,
                to: self.least_reached(),
            }),
            BrokenRule::WindowsTooClose => {
                let other = self.close_window()?;
                self.raise_past(&other)
            }
            BrokenRule::EndTooLate | BrokenRule::DeliveryPastCycle | BrokenRule::DeadlineMissed => {
                None
            }
        }
    }

    // Likewise within the cycle: no offset lies past it.
    fn next_raise(&self, rule: BrokenRule) -> Option<Raise>
        requires { Breaks (plan_of self.now.draft.now) rule self.now.flow self.now.hop }
        ensures { MatchOption result (Hopeless (plan_of self.now.draft.now) self.now.flow) (λ x. MustRise (plan_of self.now.draft.now) self.now.flow x.hop x.to × (x.to < self.now.draft.now.cycle)) }
    {
        let raise = self.forced_raise(rule)?;
        if raise.to >= self.draft.cycle {
            return None;
        }
        Some(raise)
    }
}

impl Draft {
    // Moves the window of a hop.
    fn set_offset(&mut self, flow: usize, hop: usize, to: u32)
        requires has { HasHop (plan_of self.old) flow hop }
        requires low { to < self.old.cycle }
        ensures { plan_of self.new ≡ retimed (plan_of self.old) (set_offset (plan_of self.old).windows ((flow_at (plan_of self.old) flow).first + hop) to) }
    {
        let place = self.flows[flow].first + hop;
        self.windows[place].offset = to;
    }

    // Raises one offset after another while a rule is broken. Says whether the flow now keeps the rules; if not, no offsets do.
    pub(super) fn raise_offsets(&mut self, flow: usize) -> bool
        requires { flow < flow_count (plan_of self.old) }
        ensures { Raises (plan_of self.old) flow result (plan_of self.new) }
    {
        while let Some((hop, rule)) = self.broken_hop(flow) {
            let Some(raise) = hop.next_raise(rule) else {
                return false;
            };
            self.set_offset(flow, raise.hop, raise.to);
        }
        true
    }
}
