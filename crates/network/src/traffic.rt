// The frames under way in a network, and its ports.
ghost use Rattle.std.specs.Prelude.{◌≤◌, vec_len, vec_capacity};

use crate::clocked::ClockedPort;
use crate::row::Row;

pub mod acts;
pub mod ticks;

#[derive(Drop)]
pub struct Traffic<S, K> {
    // The tick to be run next.
    now: u64,
    // One for each flow of the plan in force. There is memory for the most that a plan can have.
    rows: Vec<Row>,
    ports: Vec<ClockedPort<S, K>>,
    ghost few: { vec_len rows ≤ 16 },
    ghost reserved: { 16 ≤ vec_capacity rows },
}
