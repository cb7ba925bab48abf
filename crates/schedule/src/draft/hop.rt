// A hop of a flow, and what the rules read of it.
ghost use Rattle.std.specs.Prelude.{◌≡◌, ◌+◌, ◌<◌, ◌≤◌, suc, vec_len, Decides, MatchOption};
ghost use Rattle.schedule.specs.Plan.{HasHop, flow_count, flow_at, hop_count, window_at, wire_of, end_at, crossed_at, late_at, early_at};
ghost use Rattle.schedule.specs.Drafts.{plan_of};

use super::Draft;
use crate::limits::FRAME_OVERHEAD;
use crate::tables::{Flow, Window};

// A hop that the draft has, by flow and hop.
#[derive(Clone, Copy)]
pub(crate) struct Hop<'a> {
    pub(crate) draft: &'a Draft,
    pub(crate) flow: usize,
    pub(crate) hop: usize,
    ghost there: { HasHop (plan_of draft.now) flow hop },
}

impl Draft {
    // The hop, if the flow has it.
    pub(crate) fn hop(&self, flow: usize, hop: usize) -> Option<Hop<'_>>
        ensures { MatchOption result (HasHop (plan_of self.now) flow hop → ⊥) (λ x. (x.draft.now ≡ self.now) × (x.flow ≡ flow) × (x.hop ≡ hop)) }
    {
        if hop >= self.flows.get(flow)?.hops {
            return None;
        }
        Some(Hop {
            draft: self,
            flow,
            hop,
        })
    }

    // The last hop of a flow, if there is such a flow.
    pub(crate) fn last_hop(&self, flow: usize) -> Option<Hop<'_>>
        ensures { MatchOption result (flow_count (plan_of self.now) ≤ flow) (λ x. (x.draft.now ≡ self.now) × (x.flow ≡ flow) × (suc x.hop ≡ hop_count (plan_of self.now) flow)) }
    {
        let hops = self.flows.get(flow)?.hops;
        Some(Hop {
            draft: self,
            flow,
            hop: hops - 1,
        })
    }
}

impl<'a> Hop<'a> {
    // The hop before, if this is not the first.
    pub(super) fn before(&self) -> Option<Hop<'a>>
        ensures { MatchOption result (self.now.hop ≡ 0) (λ x. (x.draft.now ≡ self.now.draft.now) × (x.flow ≡ self.now.flow) × (suc x.hop ≡ self.now.hop)) }
    {
        let hop = self.hop.checked_sub(1)?;
        Some(Hop {
            draft: self.draft,
            flow: self.flow,
            hop,
        })
    }

    // Whether the frame is delivered after this hop.
    pub(super) fn is_last(&self) -> bool
        ensures { Decides result (suc self.now.hop ≡ hop_count (plan_of self.now.draft.now) self.now.flow) }
    {
        self.hop + 1 == self.of_flow().hops
    }

    // The flow of which it is a hop.
    pub(crate) fn of_flow(&self) -> Flow
        ensures is { result ≡ flow_at (plan_of self.now.draft.now) self.now.flow }
        ensures release { result.release < 1250000 }
        ensures octets { result.octets ≤ 1522 }
        ensures deadline { result.deadline ≤ 1250000 }
    {
        self.draft.flows[self.flow]
    }

    pub(crate) fn window(&self) -> Window
        ensures is { result ≡ window_at (plan_of self.now.draft.now) self.now.flow self.now.hop }
        ensures port { result.port < vec_len self.now.draft.now.ports }
        ensures offset { result.offset < 1250000 }
    {
        self.draft.windows[self.of_flow().first + self.hop]
    }

    // The wire time of the frame. (The cast is proved to lose no bits: `try_from` would have an error that cannot come.)
    fn wire(&self) -> u32
        ensures is { result ≡ wire_of (plan_of self.now.draft.now) self.now.flow }
        ensures most { result ≤ 1542 }
    {
        self.of_flow().octets + FRAME_OVERHEAD as u32
    }

    // The end of the window.
    pub(super) fn end(&self) -> u32
        ensures is { result ≡ end_at (plan_of self.now.draft.now) self.now.flow self.now.hop }
        ensures most { result < 1300000 }
    {
        self.window().offset + self.wire() + 2 * self.draft.error
    }

    // When a frame that starts at the offset has crossed the link.
    pub(crate) fn crossed(&self) -> u32
        ensures is { result ≡ crossed_at (plan_of self.now.draft.now) self.now.flow self.now.hop }
        ensures most { result < 1300000 }
    {
        let window = self.window();
        window.offset + self.wire() + self.draft.ports[window.port].delay
    }

    // The latest tick at which the frame can join the line of the next hop; after the last hop, be delivered.
    pub(crate) fn late_after(&self) -> u32
        ensures is { result ≡ late_at (plan_of self.now.draft.now) self.now.flow (suc self.now.hop) }
        ensures most { result < 1400000 }
    {
        self.crossed() + self.draft.error
    }

    // The latest tick at which the frame can join the line of this hop.
    pub(crate) fn late(&self) -> u32
        ensures is { result ≡ late_at (plan_of self.now.draft.now) self.now.flow self.now.hop }
        ensures most { result < 1400000 }
    {
        match self.before() {
            Some(before) => before.late_after(),
            None => self.of_flow().release,
        }
    }

    // The earliest such tick, and the clock error more.
    pub(crate) fn early(&self) -> u32
        ensures is { result ≡ early_at (plan_of self.now.draft.now) self.now.flow self.now.hop }
        ensures most { result < 1400000 }
    {
        match self.before() {
            Some(before) => before.crossed(),
            None => self.of_flow().release + self.draft.error,
        }
    }
}
