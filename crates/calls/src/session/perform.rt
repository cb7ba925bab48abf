// The calls of a scenario, one at a time.
ghost use Rattle.std.specs.Prelude.{◌≡◌, ◌+◌, ◌≤◌, ◌++◌, map, length, vec_len, vec_capacity};
ghost use Rattle.scenario.specs.Lines.{asks};
ghost use Rattle.calls.specs.Sessions.{fresh, offset_in, OpensSession, PlacesIn, AddsTo, ChecksOf, certificate_reply, GatesOf, Performs};

use super::Session;
use crate::refusal::{Missing, Refusal};
use crate::reply::Reply;
use gates::list::GateList;
use scenario::call::{Call, FlowNumbers};
use schedule::draft::Draft;
use schedule::draft::add::FlowRequest;
use schedule::draft::open::Timing;
use schedule::limits::MAX_HOPS;
use schedule::tables::Window;
use std::alloc::Global;

// Writes the offset of each window, into memory that is there: `extend` could lack some, when the flow is already placed.
fn push_offsets(offsets: &mut Vec<u32>, windows: &[Window])
    requires { vec_len offsets.old + length windows.now ≤ vec_capacity offsets.old }
    ensures { offsets.new.items ≡ offsets.old.items ++ map offset_in windows.now }
{
    for window in windows {
        offsets.push_reserved(window.offset);
    }
}

// No `From`: both types are other crates'.
fn requested(flow: &FlowNumbers) -> FlowRequest<'_>
    ensures { (result.release ≡ flow.now.release) × (result.octets ≡ flow.now.octets) × (result.deadline ≡ flow.now.deadline) × (result.route.now ≡ flow.now.route.items) }
{
    FlowRequest {
        release: flow.release,
        octets: flow.octets,
        deadline: flow.deadline,
        route: flow.route.as_slice(),
    }
}

impl Session {
    /// A session with nothing in hand.
    pub fn new() -> Session
        ensures { result ≡ fresh }
    {
        Session {
            draft: None,
            plan: None,
        }
    }

    // A new draft takes the place of the one before.
    fn open(&mut self, heap: Global, timing: Timing, delays: &[u64]) -> Result<Reply, Refusal>
        ensures { OpensSession self.old timing.cycle timing.error timing.extension delays.now result self.new }
    {
        let draft = Draft::open(heap, timing, delays)?;
        self.draft = Some(draft);
        Ok(Reply::Opened)
    }

    // Memory for the reply is had before the flow is placed.
    fn place(&mut self, heap: Global, request: FlowRequest<'_>) -> Result<Reply, Refusal>
        ensures { PlacesIn self.old.draft self.old request.entry.release request.entry.octets request.entry.deadline request.entry.route.now result self.new }
    {
        let Some(draft) = &mut self.draft else {
            return Err(Refusal::OutOfOrder(Missing::Draft));
        };
        let mut offsets = Vec::with_capacity(heap, MAX_HOPS)?;
        let flow = draft.place(request)?;
        push_offsets(&mut offsets, draft.hops(flow));
        Ok(Reply::Placed { flow, offsets })
    }

    fn add(&mut self, request: FlowRequest<'_>, offsets: &[u64]) -> Result<Reply, Refusal>
        ensures { AddsTo self.old.draft self.old request.entry.release request.entry.octets request.entry.deadline request.entry.route.now offsets.now result self.new }
    {
        let Some(draft) = &mut self.draft else {
            return Err(Refusal::OutOfOrder(Missing::Draft));
        };
        let flow = draft.add(request, offsets)?;
        Ok(Reply::Added { flow })
    }

    // The draft becomes the checked plan, or stays a draft.
    fn check(&mut self) -> Result<Reply, Refusal>
        ensures { ChecksOf self.old.draft self.old result self.new }
    {
        let Some(draft) = self.draft.take() else {
            return Err(Refusal::OutOfOrder(Missing::Draft));
        };
        match draft.check() {
            Ok(plan) => {
                self.plan = Some(plan);
                Ok(Reply::Checked)
            }
            Err((fault, draft)) => {
                self.draft = Some(draft);
                Err(Refusal::Faulty(fault))
            }
        }
    }

    fn certificate(&self, flow: u64) -> Result<Reply, Refusal>
        ensures { result ≡ certificate_reply self.now.plan flow }
    {
        let Some(plan) = &self.plan else {
            return Err(Refusal::OutOfOrder(Missing::CheckedPlan));
        };
        // a `usize` has 64 bits, so that no bit is lost; there is no `From`
        let (least, greatest) = plan.certificate(flow as usize)?;
        Ok(Reply::Certificate { least, greatest })
    }

    fn gates(&self, heap: Global, port: u64) -> Result<Reply, Refusal>
        ensures { GatesOf self.now.plan port result }
    {
        let Some(plan) = &self.plan else {
            return Err(Refusal::OutOfOrder(Missing::CheckedPlan));
        };
        // as above: no bit is lost
        let list = GateList::of_port(heap, plan, port as usize)?;
        Ok(Reply::Gates { list })
    }

    /// Does one call. Want of memory leaves everything as it was.
    pub fn perform(&mut self, heap: Global, call: Call) -> Result<Reply, Refusal>
        ensures { Performs self.old (asks call) result self.new }
    {
        match call {
            Call::Open {
                cycle,
                error,
                extension,
                delays,
            } => {
                let timing = Timing {
                    cycle,
                    error,
                    extension,
                };
                self.open(heap, timing, delays.as_slice())
            }
            Call::Place(flow) => self.place(heap, requested(&flow)),
            Call::Add { flow, offsets } => self.add(requested(&flow), offsets.as_slice()),
            Call::Check => self.check(),
            Call::Certificate { flow } => self.certificate(flow),
            Call::Gates { port } => self.gates(heap, port),
        }
    }
}
