// Networks that run a checked plan: what they are, what their calls do, and what is promised of every run.
#![tactic(auto)]

pub mod clocked;
pub mod figures;
pub mod flight;
mod lookups;
pub mod met;
mod moment;
pub mod port;
pub mod row;
pub mod shown;
pub mod traffic;
pub mod wire;
