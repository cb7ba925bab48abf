// What a checked plan answers.
ghost use Rattle.std.specs.Prelude.{◌≡◌, ◌<◌, ◌≤◌, length, MatchOption};
ghost use Rattle.schedule.specs.Plan.{flow_count, hop_count, windows_of};
ghost use Rattle.schedule.specs.Checks.{checked_plan, Transits, Certifies, Reaches};

use super::CheckedPlan;
use crate::refusal::CertificateRefusal;
use crate::tables::{Flow, Port, Window};

impl CheckedPlan {
    pub fn cycle(&self) -> u32
        ensures { result ≡ (checked_plan self.now).cycle }
    {
        self.draft.cycle
    }

    /// The most by which a clock of the network may be off.
    pub fn error(&self) -> u32
        ensures { result ≡ (checked_plan self.now).error }
    {
        self.draft.error
    }

    /// The most ticks by which a change of plans may draw out the last cycle.
    pub fn extension(&self) -> u32
        ensures { result ≡ (checked_plan self.now).extension }
    {
        self.draft.extension
    }

    pub fn ports(&self) -> &[Port]
        ensures { result.now ≡ (checked_plan self.now).ports }
    {
        self.draft.ports.as_slice()
    }

    pub fn flows(&self) -> &[Flow]
        ensures { result.now ≡ (checked_plan self.now).flows }
    {
        self.draft.flows.as_slice()
    }

    pub fn windows(&self) -> &[Window]
        ensures { result.now ≡ (checked_plan self.now).windows }
    {
        self.draft.windows.as_slice()
    }

    /// The windows of a flow, hop by hop; none for a flow that the plan does not have.
    pub fn hops(&self, flow: usize) -> &[Window]
        ensures is { result.now ≡ windows_of (checked_plan self.now) flow }
        ensures whole { length result.now ≡ hop_count (checked_plan self.now) flow }
        ensures few { length result.now ≤ 6 }
    {
        self.draft.hops(flow)
    }

    // The least and the greatest transit of a flow, if there is such a flow.
    fn transits(&self, flow: usize) -> Option<(u32, u32)>
        ensures { MatchOption result (flow_count (checked_plan self.now) ≤ flow) (λ c. (flow < flow_count (checked_plan self.now)) × Transits (checked_plan self.now) flow c) }
    {
        let last = self.draft.last_hop(flow)?;
        let release = last.of_flow().release;
        let earliest = last.crossed() - self.draft.error;
        Some((earliest - release, last.late_after() - release))
    }

    // The earliest and the latest tick at which the frame can join the line of a hop, if there is such a hop. (Below `reach`, which needs no proof file so.)
    fn reach_of(&self, flow: usize, hop: usize) -> Option<(u32, u32)>
        ensures { Reaches (checked_plan self.now) flow hop result }
    {
        let hop = self.draft.hop(flow, hop)?;
        let earliest = hop.early() - self.draft.error;
        Some((earliest, hop.late()))
    }

    /// The least and the greatest transit of a flow, from release to delivery.
    pub fn certificate(&self, flow: usize) -> Result<(u32, u32), CertificateRefusal>
        ensures { Certifies (checked_plan self.now) flow result }
    {
        self.transits(flow).ok_or(CertificateRefusal::AbsentFlow)
    }

    /// The earliest and the latest tick of the cycle at which a frame can join the line of a hop; none where there is no such hop.
    pub fn reach(&self, flow: usize, hop: usize) -> Option<(u32, u32)>
        ensures { Reaches (checked_plan self.now) flow hop result }
    {
        self.reach_of(flow, hop)
    }
}
