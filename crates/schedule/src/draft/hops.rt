// The windows of a flow of a draft.
ghost use Rattle.std.specs.Prelude.{◌≡◌, ◌+◌, ◌≤◌, length, take, drop};
ghost use Rattle.schedule.specs.Plan.{flow_at, windows_of};
ghost use Rattle.schedule.specs.Drafts.{plan_of};

use super::Draft;
use crate::tables::Window;

// So many windows from a place on.
fn stretch(windows: &[Window], first: usize, hops: usize) -> &[Window]
    requires { first + hops ≤ length windows.now }
    ensures is { result.now ≡ take hops (drop first windows.now) }
    ensures few { length result.now ≤ hops }
{
    &windows[first..first + hops]
}

impl Draft {
    // Where the hops of a flow begin, and how many there are; none for a flow that the draft does not have.
    fn span(&self, flow: usize) -> (usize, usize)
        ensures first { result.0 ≡ (flow_at (plan_of self.now) flow).first }
        ensures hops { result.1 ≡ (flow_at (plan_of self.now) flow).hops }
        ensures fits { result.0 + result.1 ≤ length self.now.windows.items }
        ensures few { result.1 ≤ 6 }
    {
        match self.flows.get(flow) {
            Some(flow) => (flow.first, flow.hops),
            None => (0, 0),
        }
    }

    /// The windows of a flow, hop by hop; none for a flow that the draft does not have.
    pub fn hops(&self, flow: usize) -> &[Window]
        ensures is { result.now ≡ windows_of (plan_of self.now) flow }
        ensures few { length result.now ≤ 6 }
    {
        let (first, hops) = self.span(flow);
        stretch(self.windows.as_slice(), first, hops)
    }
}
