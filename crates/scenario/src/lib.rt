//! The calls of a scenario: a line of text read into a call, or the problem that it has.
#![tactic(auto)]

pub mod call;
pub mod line;
mod number;
mod reads;
pub mod shown;
mod words;
