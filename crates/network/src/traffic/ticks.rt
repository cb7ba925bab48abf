// One tick of every row.
ghost use Rattle.std.specs.Prelude.{◌≡◌, ℕ, ◌^◌, ◌<◌, map, None, slice_index_or};
ghost use Rattle.schedule.specs.Checks.{checked_plan};
ghost use Rattle.network.specs.Flows.{is_flow};
ghost use Rattle.network.specs.Tables.{over, row_landed, row_departed};
ghost use Rattle.network.specs.Clocked.{started_in};

use crate::clocked::ClockedPort;
use crate::flight::Flight;
use crate::lookups::{link_delay, port_of_hop, wire_time};
use crate::row::Row;
use schedule::checked::CheckedPlan;

// Whether port p has put the frame of flow f on the wire in the tick run last.
fn has_started<S, K>(ports: &[ClockedPort<S, K>], p: usize, f: usize) -> bool
    ensures { result ≡ is_flow (slice_index_or (map started_in ports.now) p None) f }
{
    ports.get(p).is_some_and(|at| at.port.has_started(f))
}

// Step 2 of tick t, for flow f: its frame goes if the port where it waits has put it on the wire.
fn depart<S, K>(row: &mut Row, plan: &CheckedPlan, ports: &[ClockedPort<S, K>], t: u64, f: usize)
    requires { t < 2 ^ 49 }
    ensures { row.new ≡ row_departed (checked_plan plan.now) t (λ p. slice_index_or (map started_in ports.now) p None) f row.old }
{
    if let Flight::Waiting { hop, release } = row.flight {
        let p = port_of_hop(plan, f, hop);
        if has_started(ports, p, f) {
            let reach = t + wire_time(plan, f) + link_delay(plan, p);
            row.flight = Flight::Moving {
                hop,
                release,
                reach,
            };
        }
    }
}

// Tick t of the rows, once the ports have run it. The plan, the ports and the tick go to two functions alone, and stay apart.
#[tactic(auto, using(crate::proofs::Loops::over_turn, crate::proofs::Loops::over_all))]
pub(crate) fn step_rows<S, K>(
    rows: &mut [Row],
    plan: &CheckedPlan,
    ports: &[ClockedPort<S, K>],
    t: u64,
)
    requires { t < 2 ^ 49 }
    ensures { rows.new ≡ over (λ f r. row_departed (checked_plan plan.now) t (λ p. slice_index_or (map started_in ports.now) p None) f (row_landed (checked_plan plan.now) t f r)) 0 rows.old }
{
    for (f, row) in rows.iter_mut().enumerate() {
        row.land(plan, t, f);
        depart(row, plan, ports, t, f);
    }
}
