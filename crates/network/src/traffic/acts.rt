// What the tick and the calls do to the frames and ports, and what is read of them.
ghost use Rattle.network.specs.Lawful.{meaning};
ghost use Rattle.std.specs.Prelude.{◌≡◌, ℕ, ◌+◌, ◌^◌, ◌<◌, ◌≤◌, replicate, None, vec_len, vec_capacity, slice_index_or};
ghost use Rattle.schedule.specs.Plan.{flow_count};
ghost use Rattle.schedule.specs.Checks.{checked_plan};
ghost use Rattle.network.specs.Ports.{line_length, carried};
ghost use Rattle.network.specs.Tables.{at_or, blank, flight_in, reads, row_tells, ticked_tables, offered_table, fresh_tables};
ghost use Rattle.network.specs.Traffic.{tables_of, guides_of, KeepsPorts, timetables, clocks, followed, lined_table};

use super::Traffic;
use super::ticks::step_rows;
use crate::clocked::acts::run_ports;
use crate::flight::Flight;
use crate::lookups::port_of_hop;
use crate::moment::Arrivals;
use crate::row::acts::any_due;
use crate::row::{FlowRecord, Row};
use egress::clock::Clock;
use egress::ordinary::Frame;
use egress::selection::Selection;
use schedule::checked::CheckedPlan;

impl<S: Selection, K: Clock> Traffic<S, K> {
    // Runs the tick that is now.
    pub(crate) fn run_tick(&mut self, plan: &CheckedPlan)
        requires { self.now.now < 2 ^ 48 }
        ensures view { tables_of self.exit.now ≡ ticked_tables (reads K.Clock.reading (clocks (guides_of self.entry.now))) (meaning S.Selection.held S.Selection.pick S.Selection.passed) (checked_plan plan.now) (followed (timetables (guides_of self.entry.now))) (tables_of self.entry.now) }
        ensures kept { (self.exit.now.now ≡ self.entry.now.now + 1) × (vec_len self.exit.now.rows ≡ vec_len self.entry.now.rows) × KeepsPorts self.entry.now self.exit.now }
    {
        let t = self.now;
        let rows = self.rows.as_slice();
        let any = any_due(rows, t);
        run_ports(self.ports.as_mut_slice(), &Arrivals { plan, rows, t, any });
        step_rows(self.rows.as_mut_slice(), plan, self.ports.as_slice(), t);
        self.now += 1;
    }
}

impl<S, K> Traffic<S, K> {
    // The frame of flow f, offered now, joins the line of its first port.
    #[tactic(auto, using(crate::proofs::Places::place_set, crate::proofs::Places::place_seen, crate::proofs::Places::place_none, crate::proofs::Places::past_end, crate::proofs::Places::kept_at), unfolding(crate::specs::Traffic::tables_of, crate::specs::Traffic::guides_of, crate::specs::Tables::offered_table, crate::specs::Steps::adding))]
    pub(crate) fn take_offer(&mut self, plan: &CheckedPlan, f: usize)
        requires { f < vec_len self.now.rows }
        ensures view { tables_of self.exit.now ≡ offered_table (checked_plan plan.now) f (tables_of self.entry.now) }
        ensures kept { (self.exit.now.now ≡ self.entry.now.now) × (vec_len self.exit.now.rows ≡ vec_len self.entry.now.rows) × KeepsPorts self.entry.now self.exit.now }
    {
        self.rows[f].accept(self.now);
        if let Some(at) = self.ports.get_mut(port_of_hop(plan, f, 0)) {
            // There are at most 16 flows, so that no bit is lost.
            at.port.accept(f as u8);
        }
    }

    // An ordinary frame joins the line of a port and class.
    #[tactic(auto, using(crate::proofs::Places::place_seen, crate::proofs::Places::place_none, crate::proofs::Places::past_end, crate::proofs::Places::kept_at, crate::proofs::Places::at_or_seen), unfolding(crate::specs::Traffic::tables_of, crate::specs::Traffic::guides_of, crate::specs::Traffic::lined_table, crate::specs::Steps::lining))]
    pub(crate) fn take_frame(&mut self, p: usize, class: usize, frame: Frame)
        requires { (class < 7) × (at_or (line_length class) 0 (tables_of self.now).ports p < 8) }
        ensures view { tables_of self.exit.now ≡ lined_table p class frame (tables_of self.entry.now) }
        ensures kept { (self.exit.now.now ≡ self.entry.now.now) × (vec_len self.exit.now.rows ≡ vec_len self.entry.now.rows) × KeepsPorts self.entry.now self.exit.now }
    {
        if let Some(at) = self.ports.get_mut(p) {
            at.port.enqueue(class, frame);
        }
    }

    // The tick to be run next.
    #[tactic(auto, unfolding(crate::specs::Traffic::tables_of))]
    pub(crate) fn tick(&self) -> u64
        ensures { result ≡ (tables_of self.entry.now).now }
    {
        self.now
    }

    // The frame of flow f.
    #[tactic(auto, unfolding(crate::specs::Traffic::tables_of))]
    pub(crate) fn flight(&self, f: usize) -> Flight
        ensures { result ≡ flight_in (tables_of self.entry.now).rows f }
    {
        self.rows.get(f).map_or(Flight::Idle, |row| row.flight)
    }

    // The record of flow f.
    #[tactic(auto, unfolding(crate::specs::Traffic::tables_of))]
    pub(crate) fn record(&self, f: usize) -> FlowRecord
        ensures { result ≡ row_tells (slice_index_or (tables_of self.entry.now).rows f blank) }
    {
        self.rows.get(f).copied().unwrap_or_default().tell()
    }

    // How many frames of an ordinary class wait at port p.
    pub(crate) fn queued(&self, p: usize, class: usize) -> usize
        ensures { result ≡ at_or (line_length class) 0 (tables_of self.entry.now).ports p }
    {
        self.ports.get(p).map_or(0, |at| at.port.queued(class))
    }

    // What the wire of port p carries: the class and its last tick.
    pub(crate) fn wire(&self, p: usize) -> Option<(u8, u64)>
        ensures { result ≡ at_or (carried (tables_of self.entry.now).now) None (tables_of self.entry.now).ports p }
    {
        self.ports.get(p).and_then(|at| at.port.carries(self.now))
    }

    // The flows of a new plan begin with blank rows.
    #[tactic(auto, unfolding(crate::specs::Traffic::tables_of, crate::specs::Traffic::guides_of, crate::specs::Tables::fresh_tables))]
    pub(crate) fn begin_afresh(&mut self, plan: &CheckedPlan)
        ensures view { tables_of self.exit.now ≡ fresh_tables (checked_plan plan.now) (tables_of self.entry.now) }
        ensures kept { (self.exit.now.now ≡ self.entry.now.now) × (vec_len self.exit.now.rows ≡ flow_count (checked_plan plan.now)) × KeepsPorts self.entry.now self.exit.now }
    {
        refill(&mut self.rows, plan.flows().len());
    }
}

// Blank rows, as many as n, in the place of those there were.
fn refill(rows: &mut Vec<Row>, n: usize)
    requires { (n ≤ 16) × (16 ≤ vec_capacity rows.old) }
    ensures items { rows.new.items ≡ replicate n blank }
    ensures len { vec_len rows.new ≡ n }
    ensures capacity { vec_capacity rows.new ≡ vec_capacity rows.old }
{
    rows.clear();
    // One by one: the calls of `Vec` that fill it reply with a `Result`, and here there is room.
    for _i in 0..n {
        rows.push_reserved(Row::default());
    }
}
