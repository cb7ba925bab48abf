// Gate control lists of a checked plan, and the timetables that ports follow.
#![tactic(auto)]

pub mod entry;
pub mod list;
pub mod refusal;
pub mod shown;
pub mod span;
pub mod timetable;
