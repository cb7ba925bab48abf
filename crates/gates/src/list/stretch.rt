// The octet of a port at a tick, and how long it stays.
ghost use Rattle.std.specs.Prelude.{◌≡◌, ◌+◌, ◌-◌, ◌*◌};
ghost use Rattle.schedule.specs.Checks.{checked_plan};
ghost use Rattle.gates.specs.Scan.{nearer as nearer_edge, octet_with, until_with, stretch_with, stretch_after};

use schedule::checked::CheckedPlan;
use schedule::limits::FRAME_OVERHEAD;
use schedule::tables::Window;

/// Class 7 alone is open.
pub const SCHEDULED: u8 = 1 << 7;
/// The classes 0 to 6 are open.
pub const ORDINARY: u8 = SCHEDULED - 1;

/// The octet at a tick, and a later tick before which it does not change.
#[derive(Clone, Copy)]
pub struct Stretch {
    pub octet: u8,
    pub until: u64,
}

// The three edges of a window: the begin of its guard band, its begin and its end.
#[derive(Clone, Copy)]
struct Edges {
    guard: u64,
    begin: u64,
    end: u64,
}

fn nearer(tick: u64, edge: u64, next: u64) -> u64
    ensures { result ≡ nearer_edge tick edge next }
{
    if tick < edge && edge < next {
        edge
    } else {
        next
    }
}

impl Edges {
    // The window of a frame of so many octets; the guard band is twice the clock error long.
    fn of(window: Window, octets: u32, error: u32) -> Edges
        ensures guard { result.guard ≡ window.offset - 2 * error }
        ensures begin { result.begin ≡ window.offset }
        ensures end { result.end ≡ window.offset + (octets + FRAME_OVERHEAD) + 2 * error }
    {
        let error = u64::from(error);
        let begin = u64::from(window.offset);
        Edges {
            guard: begin.saturating_sub(2 * error),
            begin,
            end: begin + (u64::from(octets) + FRAME_OVERHEAD) + 2 * error,
        }
    }

    // The window shuts the ordinary classes from its guard band on, and opens class 7 from its begin on.
    fn octet(self, tick: u64, octet: u8) -> u8
        ensures { result ≡ octet_with tick self.guard self.begin self.end octet }
    {
        if tick < self.guard || tick >= self.end {
            return octet;
        }
        if tick < self.begin {
            return octet & SCHEDULED;
        }
        (octet & SCHEDULED) | SCHEDULED
    }

    // The nearest edge after the tick, of these and the one known before.
    fn next(self, tick: u64, known: u64) -> u64
        ensures { result ≡ until_with tick self.guard self.begin self.end known }
    {
        let before = nearer(tick, self.guard, known);
        let within = nearer(tick, self.begin, before);
        nearer(tick, self.end, within)
    }
}

impl Stretch {
    // One window more.
    fn with(self, edges: Edges, tick: u64) -> Stretch
        ensures { result ≡ stretch_with tick edges.guard edges.begin edges.end self }
    {
        Stretch {
            octet: edges.octet(tick, self.octet),
            until: edges.next(tick, self.until),
        }
    }
}

/// The stretch of a port from a tick on.
#[tactic(auto, unfolding(crate::specs::Scan::stretch_after))]
pub(crate) fn stretch_from(plan: &CheckedPlan, port: usize, tick: u64) -> Stretch
    ensures { result ≡ stretch_after (checked_plan plan.now) port tick }
{
    let mut stretch = Stretch {
        octet: ORDINARY,
        until: u64::from(plan.cycle()),
    };
    for (number, flow) in plan.flows().iter().enumerate() {
        for window in plan.hops(number) {
            if window.port != port {
                continue;
            }
            let edges = Edges::of(*window, flow.octets, plan.error());
            stretch = stretch.with(edges, tick);
        }
    }
    stretch
}
