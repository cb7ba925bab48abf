// What holds at a tick, and for how long yet.

/// A gate octet, and the ticks that it lasts yet.
#[derive(Clone, Copy, Debug, PartialEq, Eq)]
pub struct Span {
    pub octet: u8,
    pub ticks: u64,
}
