// Opening a draft.
ghost use Rattle.std.specs.Prelude.{◌≡◌, ◌^◌, ◌<◌, map, IfOk, All};
ghost use Rattle.schedule.specs.Drafts.{port_with, Opens};

use super::Draft;
use crate::limits::{MAX_FLOWS, MAX_WINDOWS, are_ports_allowed};
use crate::refusal::OpenRefusal;
use crate::tables::Port;
use std::alloc::{AllocError, Global};

/// The cycle of a plan, the most by which a clock may be off, and the most by which a change of plans may draw out the last cycle, in ticks.
/// Numbers beyond the limits are refused, not cut.
#[derive(Clone, Copy, Debug, PartialEq, Eq)]
pub struct Timing {
    pub cycle: u64,
    pub error: u64,
    pub extension: u64,
}

// A port for each delay. (The cast is proved to lose no bits.)
fn ports_with(heap: Global, delays: &[u64]) -> Result<Vec<Port>, AllocError>
    requires { All (λ d. d < 2 ^ 32) delays.now }
    ensures { IfOk result (λ v. v.items ≡ map port_with delays.now) }
{
    delays
        .iter()
        .map(|delay| Port {
            delay: *delay as u32,
        })
        .collect(heap)
}

impl Draft {
    /// An empty draft. Memory for the most that a plan can hold is reserved here, so that no later call lacks any.
    pub fn open(heap: Global, timing: Timing, delays: &[u64]) -> Result<Draft, OpenRefusal>
        ensures { Opens timing.cycle timing.error timing.extension delays.now result }
    {
        if !timing.is_allowed() {
            return Err(OpenRefusal::TimingBeyondLimits);
        }
        if !are_ports_allowed(delays) {
            return Err(OpenRefusal::PortsBeyondLimits);
        }
        let ports = ports_with(heap, delays)?;
        let flows = Vec::with_capacity(heap, MAX_FLOWS)?;
        let windows = Vec::with_capacity(heap, MAX_WINDOWS)?;
        // the casts are proved to lose no bits
        Ok(Draft {
            cycle: timing.cycle as u32,
            error: timing.error as u32,
            extension: timing.extension as u32,
            ports,
            flows,
            windows,
        })
    }
}
