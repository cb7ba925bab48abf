// What a network keeps of each flow of the plan in force.
use crate::flight::Flight;

pub mod acts;

/// The least and the greatest transit of the frames delivered, in ticks from release to delivery.
#[derive(Clone, Copy)]
pub struct Transits {
    pub least: u64,
    pub greatest: u64,
}

/// A flow's row: its frame, and what its record counts since the plan came into force.
#[derive(Clone, Copy, Default)]
pub struct Row {
    pub flight: Flight,
    pub accepted: u64,
    pub delivered: u64,
    pub transits: Option<Transits>,
}

/// The record of a flow, as it is read. Not a row: where the frame is stays within.
#[derive(Clone, Copy)]
pub struct FlowRecord {
    pub accepted: u64,
    pub delivered: u64,
    /// Absent before the first delivery.
    pub transits: Option<Transits>,
    /// A frame has been accepted and not delivered.
    pub under_way: bool,
}
