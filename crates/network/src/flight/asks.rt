// What is asked of the frame of a flow.
ghost use Rattle.std.specs.Prelude.{◌≡◌};
ghost use Rattle.schedule.specs.Checks.{checked_plan};
ghost use Rattle.network.specs.Flows.{joins, released_at, is_under_way};
ghost use Rattle.network.specs.Due.{reaches};

use super::Flight;
use crate::lookups::{has_hop_after, port_of_hop};
use crate::moment::Arrivals;

impl Flight {
    // Whether a frame comes to the end of its link at tick t.
    pub(crate) fn is_due(self, t: u64) -> bool
        ensures { result ≡ reaches t self }
    {
        matches!(self, Flight::Moving { reach, .. } if reach == t)
    }

    // Whether the frame of flow f joins the line of port p.
    pub(crate) fn joins(self, arrivals: &Arrivals<'_>, p: usize, f: usize) -> bool
        ensures { result ≡ joins (checked_plan arrivals.now.plan.now) arrivals.now.t p f self }
    {
        match self {
            Flight::Moving { hop, reach, .. } => {
                reach == arrivals.t
                    && has_hop_after(arrivals.plan, f, hop)
                    && port_of_hop(arrivals.plan, f, hop + 1) == p
            }
            Flight::Idle | Flight::Waiting { .. } => false,
        }
    }

    // Whether the frame was released at tick t.
    pub(crate) fn is_released_at(self, t: u64) -> bool
        ensures { result ≡ released_at t self }
    {
        match self {
            Flight::Idle => false,
            Flight::Waiting { release, .. } | Flight::Moving { release, .. } => release == t,
        }
    }

    // Whether a frame is in the network.
    pub(crate) fn is_under_way(self) -> bool
        ensures { result ≡ is_under_way self }
    {
        !matches!(self, Flight::Idle)
    }
}
