// What a tick does at a port, by its own gates and clock.
ghost use Rattle.std.specs.Prelude.{◌≡◌, map};
ghost use Rattle.schedule.specs.Checks.{checked_plan};
ghost use Rattle.network.specs.Lawful.{meaning};
ghost use Rattle.network.specs.Tables.{over};
ghost use Rattle.network.specs.Clocked.{whole, run_through};

use super::ClockedPort;
use crate::moment::{Arrivals, Moment};
use egress::clock::Clock;
use egress::selection::Selection;

impl<S: Selection, K: Clock> ClockedPort<S, K> {
    // The tick at port p.
    #[tactic(auto, using(crate::proofs::Loops::through_by))]
    fn run(&mut self, arrivals: &Arrivals<'_>, p: usize)
        ensures { whole self.new ≡ run_through K.Clock.reading (meaning S.Selection.held S.Selection.pick S.Selection.passed) (checked_plan arrivals.now.plan.now) arrivals.now.t arrivals.now.rows.now p (whole self.old) }
    {
        let reading = self.clock.read(arrivals.t);
        let octet = self.gates.octet(reading);
        self.port.join(arrivals, p);
        self.port.step(&Moment {
            plan: arrivals.plan,
            gates: &self.gates,
            t: arrivals.t,
            reading,
            octet,
        });
    }
}

// The tick at every port.
#[tactic(auto, using(crate::proofs::Loops::seen_turn, crate::proofs::Loops::over_all))]
pub(crate) fn run_ports<S: Selection, K: Clock>(
    ports: &mut [ClockedPort<S, K>],
    arrivals: &Arrivals<'_>,
)
    ensures { map whole ports.new ≡ over (run_through K.Clock.reading (meaning S.Selection.held S.Selection.pick S.Selection.passed) (checked_plan arrivals.now.plan.now) arrivals.now.t arrivals.now.rows.now) 0 (map whole ports.old) }
{
    for (p, port) in ports.iter_mut().enumerate() {
        port.run(arrivals, p);
    }
}
