// Placing a flow at the least offsets there are.
ghost use Rattle.std.specs.Prelude.{◌≡◌, min, length, take, vec_len};
ghost use Rattle.schedule.specs.Drafts.{plan_of};
ghost use Rattle.schedule.specs.Placing.{Places, MinimumFits};
ghost use Rattle.schedule.specs.Raising.{cut_back, TablesKeep, KeepsLeast};

use super::Draft;
use super::add::FlowRequest;
use crate::limits::MAX_HOPS;
use crate::refusal::FlowRefusal;

// Where trial windows begin.
const LOWEST: [u64; MAX_HOPS] = [0; MAX_HOPS];

// How many hops a trial has: never more than there are lowest offsets.
fn trial_hops(route: &[u64]) -> usize
    ensures { result ≡ min (length route.now) 6 }
{
    route.len().min(MAX_HOPS)
}

// A draft with a trial flow as its last, and the counts of flows and windows before it: its end restores them unless the flow is kept.
struct Trial<'a> {
    draft: &'a mut Draft,
    flows: usize,
    windows: usize,
}

impl Trial<'_> {
    // Ends the trial with its flow in the draft.
    fn keep(self)
        ensures { self.exit.0.now ≡ self.entry.draft.now }
    {
        let Trial {
            draft: _,
            flows: _,
            windows: _,
        } = self;
    }
}

impl Drop for Trial<'_> {
    fn drop(self)
        requires { TablesKeep self.draft.now.cycle (vec_len self.draft.now.ports) (take self.flows self.draft.now.flows.items) (take self.windows self.draft.now.windows.items) }
        ensures { plan_of self.exit.0.now ≡ cut_back (plan_of self.entry.draft.now) self.entry.flows self.entry.windows }
    {
        let Trial {
            draft,
            flows,
            windows,
        } = self;
        draft.cut_back(flows, windows);
    }
}

impl Draft {
    // Lets go of the flows and windows past these counts.
    fn cut_back(&mut self, flows: usize, windows: usize)
        requires { TablesKeep self.old.cycle (vec_len self.old.ports) (take flows self.old.flows.items) (take windows self.old.windows.items) }
        ensures { plan_of self.new ≡ cut_back (plan_of self.old) flows windows }
    {
        self.flows.truncate(flows);
        self.windows.truncate(windows);
    }

    // Keeps the flow at the least offsets there are, and replies its number if there are any.
    fn keep_least(&mut self, request: FlowRequest<'_>) -> Result<Option<usize>, FlowRefusal>
        ensures { KeepsLeast self.old request.entry.release request.entry.octets request.entry.deadline request.entry.route.now result self.new }
    {
        let windows = self.windows.len();
        let hops = trial_hops(request.route);
        let flow = self.add(request, &LOWEST[..hops])?;
        let trial = Trial {
            draft: self,
            flows: flow,
            windows,
        };
        if !trial.draft.raise_offsets(flow) {
            return Ok(None);
        }
        trial.keep();
        Ok(Some(flow))
    }

    /// Keeps the flow at the least offsets with which it keeps the rules beside the flows already there, and replies its number.
    pub fn place(&mut self, request: FlowRequest<'_>) -> Result<usize, FlowRefusal>
        ensures { Places self.old request.entry.release request.entry.octets request.entry.deadline request.entry.route.now result self.new }
    {
        self.keep_least(request)?.ok_or(FlowRefusal::NoOffsets)
    }
}

/// Of two ways to place a flow, the lesser offset at each hop is a way too.
pub fn minimum_fits()
    ensures { MinimumFits }
{}
