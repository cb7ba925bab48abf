// The line of scheduled frames at a port: they wait as flow numbers.
ghost use Rattle.std.specs.Prelude.{ℕ};

use crate::queue::{Entry, Queue};

// How many scheduled frames can wait at a port.
const FLOW_ROOM: usize = 16;

/// A line of flow numbers.
pub type FlowLine = Queue<u8, FLOW_ROOM>;

impl Entry for u8 {
    ghost BLANK = { 0 };

    const BLANK: u8 = 0;
}
