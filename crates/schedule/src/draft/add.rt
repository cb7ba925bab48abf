// Adding a flow with given offsets.
ghost use Rattle.std.specs.Prelude.{◌≡◌, ℕ, ◌+◌, ◌^◌, ◌<◌, ◌≤◌, ◌++◌, length, vec_len, vec_capacity, slice_index};
ghost use Rattle.schedule.specs.Drafts.{windows_along, Adds};

use super::Draft;
use crate::limits::MAX_FLOWS;
use crate::refusal::FlowRefusal;
use crate::tables::{Flow, Window};

/// What a flow asks for; numbers beyond the limits are refused, not cut.
#[derive(Clone, Copy)]
pub struct FlowRequest<'a> {
    pub release: u64,
    pub octets: u64,
    pub deadline: u64,
    /// The ports that it crosses, in order.
    pub route: &'a [u64],
}

// Writes the windows of a route behind the others.
fn push_windows(windows: &mut Vec<Window>, route: &[u64], offsets: &[u64])
    requires same_length { length offsets.now ≡ length route.now }
    requires room { vec_len windows.old + length route.now ≤ vec_capacity windows.old }
    requires fits { (i : ℕ) → i < length offsets.now → slice_index offsets.now i < 2 ^ 32 }
    ensures items { windows.new.items ≡ windows.old.items ++ windows_along route.now offsets.now }
    ensures capacity { vec_capacity windows.new ≡ vec_capacity windows.old }
{
    // proved to lose no bits, as below
    for (port, offset) in route.iter().zip(offsets) {
        windows.push_reserved(Window {
            port: *port as usize,
            offset: *offset as u32,
        });
    }
}

impl Draft {
    /// Keeps the flow with these offsets, and replies its number. Rules are left to the check.
    pub fn add(&mut self, request: FlowRequest<'_>, offsets: &[u64]) -> Result<usize, FlowRefusal>
        ensures { Adds self.old request.entry.release request.entry.octets request.entry.deadline request.entry.route.now offsets.now result self.new }
    {
        if self.flows.len() >= MAX_FLOWS {
            return Err(FlowRefusal::DraftFull);
        }
        let cycle = u64::from(self.cycle);
        if !request.is_flow_allowed(cycle) {
            return Err(FlowRefusal::FlowBeyondLimits);
        }
        if !request.is_route_allowed(self.ports.len()) {
            return Err(FlowRefusal::BadRoute);
        }
        if !request.are_offsets_allowed(cycle, offsets) {
            return Err(FlowRefusal::BadOffsets);
        }
        // the casts are proved to lose no bits: `try_from` would have an error that cannot come
        let flow = Flow {
            release: request.release as u32,
            octets: request.octets as u32,
            deadline: request.deadline as u32,
            first: self.windows.len(),
            hops: request.route.len(),
        };
        push_windows(&mut self.windows, request.route, offsets);
        self.flows.push_reserved(flow);
        Ok(self.flows.len() - 1)
    }
}
