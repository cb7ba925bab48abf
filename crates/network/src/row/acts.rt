// What the calls and the tick do to the rows of the flows.
ghost use Rattle.std.specs.Prelude.{◌≡◌};
ghost use Rattle.schedule.specs.Checks.{checked_plan};
ghost use Rattle.network.specs.Flows.{widened};
ghost use Rattle.network.specs.Tables.{row_landed, row_accepted, row_tells};
ghost use Rattle.network.specs.Due.{some_due};

use super::{FlowRecord, Row, Transits};
use crate::flight::Flight;
use crate::lookups::has_hop_after;
use schedule::checked::CheckedPlan;

impl Transits {
    // The least and greatest transit, with one more.
    fn widened(seen: Option<Transits>, x: u64) -> Transits
        ensures { result ≡ widened seen x }
    {
        match seen {
            None => Transits {
                least: x,
                greatest: x,
            },
            Some(s) => Transits {
                least: s.least.min(x),
                greatest: s.greatest.max(x),
            },
        }
    }
}

impl Row {
    // Step 1 of tick t, for flow f.
    pub(crate) fn land(&mut self, plan: &CheckedPlan, t: u64, f: usize)
        ensures { self.new ≡ row_landed (checked_plan plan.now) t f self.old }
    {
        if let Flight::Moving {
            hop,
            release,
            reach,
        } = self.flight
            && reach == t
        {
            if has_hop_after(plan, f, hop) {
                self.flight = Flight::Waiting {
                    hop: hop + 1,
                    release,
                };
            } else {
                self.flight = Flight::Idle;
                self.delivered = self.delivered.saturating_add(1);
                self.transits = Some(Transits::widened(
                    self.transits,
                    reach.saturating_sub(release),
                ));
            }
        }
    }

    // An offer is accepted at tick t.
    pub(crate) fn accept(&mut self, t: u64)
        ensures { self.new ≡ row_accepted t self.old }
    {
        self.flight = Flight::Waiting { hop: 0, release: t };
        self.accepted = self.accepted.saturating_add(1);
    }

    // The record of the flow.
    pub(crate) fn tell(&self) -> FlowRecord
        ensures { result ≡ row_tells self.now }
    {
        FlowRecord {
            accepted: self.accepted,
            delivered: self.delivered,
            transits: self.transits,
            under_way: self.flight.is_under_way(),
        }
    }
}

// Whether any frame comes to the end of its link at tick t.
pub(crate) fn any_due(rows: &[Row], t: u64) -> bool
    ensures { result ≡ some_due t rows.now }
{
    rows.iter().any(|row| row.flight.is_due(t))
}
