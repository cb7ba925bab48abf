// What is done to the lines of a port.
ghost use Rattle.std.specs.Prelude.{◌≡◌, ℕ, ◌+◌, ◌^◌, ◌<◌, ◌≤◌, Bool, [], ◌∷◌, ◌++◌, map, length, take, if◌then◌else◌, slice_index_or};
ghost use Rattle.schedule.specs.Checks.{checked_plan};
ghost use Rattle.egress.specs.Lines.{flows, frames};
ghost use Rattle.egress.specs.Waiting.{rest};
ghost use Rattle.network.specs.Flows.{joins};
ghost use Rattle.network.specs.Ports.{at_place, listed, mask_of, time_of_first, frame_time};
ghost use Rattle.network.specs.Tables.{flight_in};

use crate::moment::Arrivals;
use egress::ordinary::FrameLine;
use egress::scheduled::FlowLine;
use schedule::limits::FRAME_OVERHEAD;

// A mask of classes below `class`, with `class` or without.
fn with_class(mask: u8, class: u8, on: bool) -> u8
    requires { (class < 8) × (mask < 2 ^ class) }
    ensures { result ≡ mask + (if on then 2 ^ class else 0) }
{
    if on { mask + (1 << class) } else { mask }
}

// The classes that a test admits, as a mask. A loop: a mask is defined class by class, and a `fold` would say no less.
#[tactic(auto, using(crate::proofs::Masks::mask_fits, crate::proofs::Masks::mask_start, crate::proofs::Masks::mask_step))]
pub(crate) fn classes<F: Fn(u8) -> bool>(admits: F) -> u8
    requires { F.IsAlwaysCallable admits }
    ensures { (q : ℕ → Bool) → ((c : ℕ) (b : Bool) → c < 8 → F.post admits c b → b ≡ q c) → result ≡ mask_of q }
{
    let mut mask = 0;
    for class in 0..8 {
        mask = with_class(mask, class, admits(class));
    }
    mask
}

// A flow joins the line, if there is room. (That no more wait than there is room for is the port's own invariant: a line alone does not say it.)
#[tactic(auto, using(crate::proofs::Joining::joined_take))]
pub(crate) fn add_flow(line: &mut FlowLine, f: u8)
    requires { length (flows line.old) ≤ 16 }
    ensures { flows line.new ≡ take 16 (flows line.old ++ f ∷ []) }
{
    let _ = line.push(f);
}

// Those that reach port p join its line, the lower flow first.
#[tactic(auto, using(crate::proofs::Joining::join_start, crate::proofs::Joining::join_more, crate::proofs::Joining::join_same, crate::proofs::Joining::join_none, crate::proofs::Joining::none_joins))]
pub(crate) fn join(line: &mut FlowLine, arrivals: &Arrivals<'_>, p: usize)
    requires { length (flows line.old) ≤ 16 }
    ensures { flows line.new ≡ take 16 (flows line.old ++ listed (length arrivals.now.rows.now) (λ f. joins (checked_plan arrivals.now.plan.now) arrivals.now.t p f (flight_in arrivals.now.rows.now f))) }
{
    if !arrivals.any {
        return;
    }
    for (f, row) in arrivals.rows.iter().enumerate() {
        if row.flight.joins(arrivals, p, f) {
            // There are at most 16 flows, so that no bit is lost.
            add_flow(line, f as u8);
        }
    }
}

// The wire time of the first frame of an ordinary class, 0 if none waits.
pub(crate) fn frame_time(lines: &[FrameLine; 7], class: usize) -> u64
    ensures { (result ≡ time_of_first frame_time (slice_index_or (map frames lines.now) class [])) × (result < 2 ^ 33) }
{
    lines
        .get(class)
        .and_then(FrameLine::first)
        .map_or(0, |frame| u64::from(frame.octets) + FRAME_OVERHEAD)
}

// The first frame of an ordinary class leaves its line.
#[tactic(auto, using(crate::proofs::Places::place_seen, crate::proofs::Places::place_none))]
pub(crate) fn drop_first(lines: &mut [FrameLine; 7], class: usize)
    ensures { map frames lines.new ≡ at_place class rest (map frames lines.old) }
{
    // By index: of a line that `get_mut` lends no clause says what the array then holds.
    if class < 7 {
        let _ = lines[class].take();
    }
}

// How many frames of an ordinary class wait.
pub(crate) fn line_len(lines: &[FrameLine; 7], class: usize) -> usize
    ensures { result ≡ length (slice_index_or (map frames lines.now) class []) }
{
    lines.get(class).map_or(0, FrameLine::len)
}
