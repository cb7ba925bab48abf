// A draft: what has been entered, rules unseen.
ghost use Rattle.std.specs.Prelude.{◌≤◌, vec_len, vec_capacity};
ghost use Rattle.schedule.specs.Held.{TimingHeld, PortsHeld, DelaysHeld, TablesHeld, FlowsHeld, StretchesHeld, OrderHeld, WindowsHeld, RoutesHeld};

use crate::tables::{Flow, Port, Window};

pub mod add;
pub(crate) mod hop;
pub mod hops;
pub mod open;
pub mod place;
mod raise;
pub mod rules;

/// A plan in the making: it may break the rules, never the limits. (The first three are no struct: the rules read them one by one, in 32 bits.)
#[derive(Drop)]
pub struct Draft {
    pub(crate) cycle: u32,
    pub(crate) error: u32,
    pub(crate) extension: u32,
    pub(crate) ports: Vec<Port>,
    pub(crate) flows: Vec<Flow>,
    pub(crate) windows: Vec<Window>,
    ghost timing: { TimingHeld cycle error extension },
    ghost counted: { PortsHeld ports.items },
    ghost delayed: { DelaysHeld ports.items },
    ghost tables: { TablesHeld flows.items windows.items },
    ghost allowed: { FlowsHeld cycle flows.items },
    ghost stretches: { StretchesHeld flows.items windows.items },
    ghost placed: { WindowsHeld cycle (vec_len ports) windows.items },
    ghost ordered: { OrderHeld flows.items },
    ghost routes: { RoutesHeld (vec_len ports) flows.items windows.items },
    ghost reserved: { (16 ≤ vec_capacity flows) × (96 ≤ vec_capacity windows) },
}
