// Examples of planning at and beyond each edge: proved safe, and run.
#![tactic(auto)]

#[cfg(test)]
mod checks;
#[cfg(test)]
mod gate_lists;
#[cfg(test)]
mod limits;
#[cfg(test)]
mod placing;
#[cfg(test)]
mod requests;
