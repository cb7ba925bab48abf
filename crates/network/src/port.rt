// A port: what waits at it, what is on its wire, and its selection.
ghost use Rattle.std.specs.Prelude.{◌≡◌, ◌≤◌, length};
ghost use Rattle.egress.specs.Lines.{flows};

use crate::wire::Wire;
use egress::ordinary::FrameLine;
use egress::scheduled::FlowLine;

pub mod acts;
pub mod calls;
pub mod lines;

#[derive(Drop)]
pub struct Port<S> {
    // The line of class 7.
    scheduled: FlowLine,
    // The lines of the classes 0 to 6. An array, since a port has no heap.
    ordinary: [FrameLine; 7],
    wire: Wire,
    selection: S,
    // The flow whose frame was put on the wire in the tick run last.
    started: Option<u8>,
    ghost few: { length (flows scheduled) ≤ 16 },
    ghost seven: { length ordinary ≡ 7 },
}
