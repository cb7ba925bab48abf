// Gate control lists.
ghost use Rattle.std.specs.Prelude.{◌≡◌, ◌<◌, ◌≤◌, vec_capacity};
ghost use Rattle.gates.specs.Lists.{total, Lasting};
ghost use Rattle.gates.specs.declared.list.make.TheConstants.{MAX_ENTRIES};

use crate::entry::GateEntry;

pub mod make;
pub mod print;
pub mod stretch;
pub mod walk;

/// The entries of one port in time order: none is empty, and they total the cycle, which has a tick at least.
/// There is memory for the most entries of a list, so that another list can take its place.
#[derive(Drop)]
pub struct GateList {
    cycle: u32,
    entries: Vec<GateEntry>,
    ghost lasting: { Lasting entries.items },
    ghost whole: { total entries.items ≡ cycle },
    ghost positive: { 0 < cycle },
    ghost roomy: { MAX_ENTRIES ≤ vec_capacity entries },
}
