// Scripts: commands read from text, carried out on a node, and answered in text.
#![tactic(auto)]

pub mod planner;
pub mod runner;
pub mod tally;
