// The line of an ordinary class at a port: frames wait as octets with a label.
ghost use Rattle.std.specs.Prelude.{ℕ};

use crate::queue::{Entry, Queue};

// How many frames of an ordinary class can wait at a port.
const FRAME_ROOM: usize = 8;

/// An ordinary frame: its octets, and a label that its sender gave it.
#[derive(Clone, Copy, PartialEq, Debug)]
pub struct Frame {
    pub octets: u16,
    pub label: u16,
}

/// A line of frames.
pub type FrameLine = Queue<Frame, FRAME_ROOM>;

impl Entry for Frame {
    ghost BLANK = { record { octets = 0; label = 0 } };

    const BLANK: Frame = Frame {
        octets: 0,
        label: 0,
    };
}
