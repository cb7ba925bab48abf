// What a tick does at a port.
#![tactic(auto, unfolding(crate::specs::Steps::port_of, crate::specs::Steps::timing, crate::specs::Steps::joining, crate::specs::Steps::sending, crate::specs::Steps::passing, crate::specs::Steps::ready, crate::specs::Steps::choosing, crate::specs::Steps::stepping))]

ghost use Rattle.network.specs.Lawful.{meaning};
ghost use Rattle.std.specs.Prelude.{◌≡◌, ℕ, ◌+◌, ◌^◌, ◌<◌};
ghost use Rattle.schedule.specs.Checks.{checked_plan};
ghost use Rattle.gates.specs.Lookup.{octets};
ghost use Rattle.network.specs.Ports.{empty_port, mask_of, flow_sent};
ghost use Rattle.network.specs.Steps.{port_of, seen, has_waiting, timing, ready, joining, choosing, sending, passing, stepping};

use super::Port;
use super::lines::{classes, drop_first, frame_time, join, line_len};
use crate::lookups::wire_time;
use crate::moment::{Arrivals, Moment};
use crate::wire::Wire;
use egress::ordinary::FrameLine;
use egress::scheduled::FlowLine;
use egress::selection::Selection;
use gates::entry::is_open;
use schedule::checked::CheckedPlan;

impl<S> Port<S> {
    // A port with nothing at it.
    pub(crate) fn new(selection: S) -> Port<S>
        ensures { port_of result ≡ empty_port selection }
    {
        Port {
            scheduled: FlowLine::new(),
            ordinary: [FrameLine::new(); 7],
            wire: Wire::default(),
            selection,
            started: None,
        }
    }

    // Step 1 at port p.
    pub(crate) fn join(&mut self, arrivals: &Arrivals<'_>, p: usize)
        ensures { port_of self.new ≡ joining (checked_plan arrivals.now.plan.now) arrivals.now.t arrivals.now.rows.now p (port_of self.old) }
    {
        join(&mut self.scheduled, arrivals, p);
    }

    // The wire time of the first frame of a class, 0 if none waits.
    fn time(&self, plan: &CheckedPlan, class: u8) -> u64
        ensures { (result ≡ timing (checked_plan plan.now) (port_of self.now) class) × (result < 2 ^ 33) }
    {
        if class == 7 {
            self.scheduled
                .first()
                .map_or(0, |f| wire_time(plan, usize::from(f)))
        } else {
            frame_time(&self.ordinary, usize::from(class))
        }
    }

    // Whether frames of a class wait.
    fn has_waiting(&self, class: u8) -> bool
        ensures { result ≡ has_waiting (port_of self.now) class }
    {
        if class == 7 {
            0 < self.scheduled.len()
        } else {
            0 < line_len(&self.ordinary, usize::from(class))
        }
    }

    // The classes with frames waiting.
    fn waiting(&self) -> u8
        ensures { result ≡ mask_of (has_waiting (port_of self.now)) }
    {
        classes(|class| self.has_waiting(class))
    }

    // Whether the first frame of a class can go.
    fn is_available(&self, m: &Moment<'_>, class: u8) -> bool
        ensures { result ≡ ready (checked_plan m.now.plan.now) (octets m.now.gates.now) m.now.reading (port_of self.now) class }
    {
        if !is_open(m.octet, class) {
            return false;
        }
        let w = self.time(m.plan, class);
        w != 0 && m.gates.open_for(m.reading, class, w)
    }

    // The classes whose first frame can go.
    fn available(&self, m: &Moment<'_>) -> u8
        ensures { result ≡ mask_of (ready (checked_plan m.now.plan.now) (octets m.now.gates.now) m.now.reading (port_of self.now)) }
    {
        classes(|class| self.is_available(m, class))
    }

    // Puts the first frame of a class on the wire.
    fn send(&mut self, m: &Moment<'_>, class: u8)
        ensures port { port_of self.new ≡ sending (checked_plan m.now.plan.now) m.now.t (port_of self.old) (Some class) }
        ensures started { self.new.started ≡ flow_sent (port_of self.old) (Some class) }
    {
        let until = m.t + self.time(m.plan, class);
        self.wire = Wire { class, until };
        if class == 7 {
            self.started = self.scheduled.take();
        } else {
            self.started = None;
            drop_first(&mut self.ordinary, usize::from(class));
        }
    }
}

impl<S: Selection> Port<S> {
    // Step 2.
    fn choose(&mut self, m: &Moment<'_>)
        ensures port { port_of self.new ≡ sending (checked_plan m.now.plan.now) m.now.t (port_of self.old) (choosing (checked_plan m.now.plan.now) (octets m.now.gates.now) (meaning S.Selection.held S.Selection.pick S.Selection.passed) m.now.t m.now.reading (port_of self.old)) }
        ensures started { self.new.started ≡ flow_sent (port_of self.old) (choosing (checked_plan m.now.plan.now) (octets m.now.gates.now) (meaning S.Selection.held S.Selection.pick S.Selection.passed) m.now.t m.now.reading (port_of self.old)) }
    {
        if self.wire.is_busy(m.t) {
            self.started = None;
            return;
        }
        match self.selection.ask(self.available(m)) {
            Some(class) => self.send(m, class),
            None => self.started = None,
        }
    }

    // Step 3.
    fn pass(&mut self, m: &Moment<'_>)
        ensures port { port_of self.new ≡ passing (checked_plan m.now.plan.now) (octets m.now.gates.now) (meaning S.Selection.held S.Selection.pick S.Selection.passed) m.now.t m.now.reading (port_of self.old) }
        ensures started { self.new.started ≡ self.old.started }
    {
        let wire = self.wire.class_at(m.t);
        let waiting = self.waiting();
        self.selection.pass(wire, waiting, m.octet);
    }

    // The tick after step 1.
    pub(crate) fn step(&mut self, m: &Moment<'_>)
        ensures { seen self.new ≡ stepping (meaning S.Selection.held S.Selection.pick S.Selection.passed) (checked_plan m.now.plan.now) m.now.t (octets m.now.gates.now) m.now.reading (port_of self.old) }
    {
        self.choose(m);
        self.pass(m);
    }
}
