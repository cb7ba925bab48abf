// Where the frame of a flow is. A flow has at most one in the network.
pub mod asks;

#[derive(Clone, Copy, Default)]
pub enum Flight {
    /// None is in the network.
    #[default]
    Idle,
    /// It waits in the line of the port of this hop.
    Waiting {
        hop: usize,
        release: u64,
    },
    /// It has been put on the wire at this hop, and comes to the next one, or to the listener, at its reach tick.
    Moving {
        hop: usize,
        release: u64,
        reach: u64,
    },
}
