// What a port is made of: waiting lines, selections and clocks.
#![tactic(auto)]

pub mod choice;
pub mod clock;
pub mod line;
pub mod ordinary;
pub mod queue;
pub mod scheduled;
pub mod selection;
pub mod setting;
pub mod shaped;
pub mod shaper;
pub mod shifted;
pub mod shown;
pub mod stepped;
pub mod strict;
#[cfg(test)]
mod tests;
