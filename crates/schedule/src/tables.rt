// The tables that a plan is made of. A tick is the time of one octet at 1 Gbit/s.

/// A port, by the link that it feeds.
#[derive(Clone, Copy, Debug, PartialEq, Eq, Default)]
pub struct Port {
    /// Ticks from the end of a frame on the wire to its arrival at the other end.
    pub delay: u32,
}

/// A flow: one frame a cycle along a route. Its hops are a stretch of the one window table, for which `open` reserves all memory:
/// a `Vec` for each flow would have to be allocated when the flow is added.
#[derive(Clone, Copy, Debug, PartialEq, Eq, Default)]
pub struct Flow {
    pub release: u32,
    pub octets: u32,
    pub deadline: u32,
    /// The place of hop 0 in the window table.
    pub first: usize,
    pub hops: usize,
}

/// The window of one hop: it begins at the offset, at the port that the hop crosses.
#[derive(Clone, Copy, Debug, PartialEq, Eq, Default)]
pub struct Window {
    pub port: usize,
    pub offset: u32,
}
