// The limits of what a plan is made of.
ghost use Rattle.std.specs.Prelude.{◌≡◌};
ghost use Rattle.schedule.specs.Limits.{timing_allowed, each_below, ports_allowed, flow_allowed, ports_differ, route_allowed, offsets_allowed};

use crate::draft::add::FlowRequest;
use crate::draft::open::Timing;

/// The most flows of a plan.
pub const MAX_FLOWS: usize = 16;
/// The most hops of a flow.
pub const MAX_HOPS: usize = 6;
/// The most windows of a plan.
pub const MAX_WINDOWS: usize = MAX_FLOWS * MAX_HOPS;
/// The most ports of a plan.
pub const MAX_PORTS: usize = 16;
/// The longest delay of a link, and the longest deadline.
pub const MAX_DELAY: u64 = 25_000;

pub const MAX_DEADLINE: u64 = 1_250_000;
/// The shortest and the longest cycle, and the largest clock error.
pub const MIN_CYCLE: u64 = 1_000;

pub const MAX_CYCLE: u64 = 1_250_000;

pub const MAX_ERROR: u64 = 125;
/// The fewest and the most octets of a frame.
pub const MIN_OCTETS: u64 = 64;

pub const MAX_OCTETS: u64 = 1_522;
/// What the wire time of a frame adds to its octets: preamble, start delimiter and the gap between frames.
pub const FRAME_OVERHEAD: u64 = 20;

fn are_below(bound: u64, numbers: &[u64]) -> bool
    ensures { result ≡ each_below bound numbers.now }
{
    numbers.iter().all(|n| *n < bound)
}

fn do_ports_differ(count: usize, route: &[u64]) -> bool
    ensures { result ≡ ports_differ count route.now }
{
    // with the hop, behind which the port must not come again
    for (hop, port) in route.iter().enumerate() {
        // a `usize` has 64 bits, so that no bit is lost; there is no `From`
        if *port >= count as u64 {
            return false;
        }
        if route[hop + 1..].contains(port) {
            return false;
        }
    }
    true
}

pub(crate) fn are_ports_allowed(delays: &[u64]) -> bool
    ensures { result ≡ ports_allowed delays.now }
{
    (1..=MAX_PORTS).contains(&delays.len()) && are_below(MAX_DELAY + 1, delays)
}

impl Timing {
    pub(crate) fn is_allowed(&self) -> bool
        ensures { result ≡ timing_allowed self.now.cycle self.now.error self.now.extension }
    {
        (MIN_CYCLE..=MAX_CYCLE).contains(&self.cycle)
            && (self.error <= MAX_ERROR && self.extension < self.cycle)
    }
}

impl FlowRequest<'_> {
    pub(crate) fn is_flow_allowed(&self, cycle: u64) -> bool
        ensures { result ≡ flow_allowed cycle self.now.release self.now.octets self.now.deadline }
    {
        self.release < cycle
            && ((MIN_OCTETS..=MAX_OCTETS).contains(&self.octets)
                && (1..=MAX_DEADLINE).contains(&self.deadline))
    }

    pub(crate) fn is_route_allowed(&self, ports: usize) -> bool
        ensures { result ≡ route_allowed ports self.now.route.now }
    {
        (1..=MAX_HOPS).contains(&self.route.len()) && do_ports_differ(ports, self.route)
    }

    pub(crate) fn are_offsets_allowed(&self, cycle: u64, offsets: &[u64]) -> bool
        ensures { result ≡ offsets_allowed cycle self.now.route.now offsets.now }
    {
        offsets.len() == self.route.len() && are_below(cycle, offsets)
    }
}
