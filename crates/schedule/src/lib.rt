// Planning: flows and their windows, the rules that they keep, drafts and checked plans.
#![tactic(auto)]

pub mod checked;
pub mod draft;
pub mod limits;
pub mod refusal;
pub mod tables;
