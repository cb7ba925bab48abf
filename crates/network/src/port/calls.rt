// What the calls do at a port, and what is read of it.
#![tactic(auto, unfolding(crate::specs::Steps::port_of, crate::specs::Steps::adding, crate::specs::Steps::lining))]

ghost use Rattle.std.specs.Prelude.{◌≡◌, ◌<◌};
ghost use Rattle.network.specs.Flows.{is_flow};
ghost use Rattle.network.specs.Ports.{line_length, carried};
ghost use Rattle.network.specs.Steps.{port_of, adding, lining};

use super::Port;
use super::lines::{add_flow, line_len};
use egress::ordinary::Frame;

impl<S> Port<S> {
    // The frame of flow f joins the line of class 7.
    pub(crate) fn accept(&mut self, f: u8)
        ensures { port_of self.new ≡ adding f (port_of self.old) }
    {
        add_flow(&mut self.scheduled, f);
    }

    // A frame joins the line of an ordinary class.
    pub(crate) fn enqueue(&mut self, class: usize, frame: Frame)
        requires { (class < 7) × (line_length class (port_of self.old) < 8) }
        ensures { port_of self.new ≡ lining class frame (port_of self.old) }
    {
        // By index: of a line that `get_mut` lends no clause says what the array then holds.
        let _ = self.ordinary[class].push(frame);
    }

    // Whether it has put the frame of flow f on the wire in the tick run last.
    pub(crate) fn has_started(&self, f: usize) -> bool
        ensures { result ≡ is_flow self.now.started f }
    {
        self.started.is_some_and(|g| usize::from(g) == f)
    }

    // How many frames of an ordinary class wait.
    pub(crate) fn queued(&self, class: usize) -> usize
        ensures { result ≡ line_length class (port_of self.now) }
    {
        line_len(&self.ordinary, class)
    }

    // What the wire carries, with the tick to be run: the class and its last tick.
    pub(crate) fn carries(&self, t: u64) -> Option<(u8, u64)>
        ensures { result ≡ carried t (port_of self.now) }
    {
        self.wire.carries(t)
    }
}
