// What a tick reads of a plan. Past the end of a table it reads zeros.
ghost use Rattle.std.specs.Prelude.{◌≡◌, ℕ, ◌+◌, ◌^◌, ◌<◌, true};
ghost use Rattle.schedule.specs.Plan.{flow_at, port_at, wire_of, delay_of};
ghost use Rattle.schedule.specs.Checks.{checked_plan};
ghost use Rattle.network.specs.Flows.{has_next};

use schedule::checked::CheckedPlan;
use schedule::limits::FRAME_OVERHEAD;
use schedule::tables::Flow;

// Flow f.
pub(crate) fn flow_of(plan: &CheckedPlan, f: usize) -> Flow
    ensures { result ≡ flow_at (checked_plan plan.now) f }
{
    plan.flows().get(f).copied().unwrap_or_default()
}

// The port that hop h of flow f crosses.
pub(crate) fn port_of_hop(plan: &CheckedPlan, f: usize, h: usize) -> usize
    ensures { result ≡ port_at (checked_plan plan.now) f h }
{
    // in the whole table, as the definition reads it: `hops` ends with the flow
    let windows = plan.windows();
    let place = flow_of(plan, f).first.checked_add(h);
    place
        .and_then(|i| windows.get(i))
        .map_or(0, |window| window.port)
}

// Whether flow f has a hop after hop h.
pub(crate) fn has_hop_after(plan: &CheckedPlan, f: usize, h: usize) -> bool
    ensures value { result ≡ has_next (checked_plan plan.now) f h }
    ensures bound { result ≡ true → h + 1 < 2 ^ 64 }
{
    let flow = flow_of(plan, f);
    h < flow.hops.saturating_sub(1)
}

// The wire time of a frame of flow f.
pub(crate) fn wire_time(plan: &CheckedPlan, f: usize) -> u64
    ensures { (result ≡ wire_of (checked_plan plan.now) f) × (result < 2 ^ 33) }
{
    u64::from(flow_of(plan, f).octets) + FRAME_OVERHEAD
}

// The delay of the link that port p feeds.
pub(crate) fn link_delay(plan: &CheckedPlan, p: usize) -> u64
    ensures { (result ≡ delay_of (checked_plan plan.now) p) × (result < 2 ^ 32) }
{
    plan.ports().get(p).map_or(0, |port| u64::from(port.delay))
}
