// The calls of a scenario done one at a time, with their replies.
#![tactic(auto)]

pub mod refusal;
pub mod reply;
pub mod session;
