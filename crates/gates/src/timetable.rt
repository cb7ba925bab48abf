// What a port follows by its own clock: a gate list that goes round, and the list that comes after it.
use crate::list::GateList;

pub mod change;
pub mod lookup;
pub mod round;

/// A gate list that goes round from its base on. Before the base every gate is closed.
#[derive(Drop)]
pub struct Rotation {
    list: GateList,
    base: u64,
}

/// What a port follows, and what takes its place from the next base on, if anything does.
#[derive(Drop)]
pub struct Timetable {
    current: Rotation,
    next: Option<Rotation>,
}
