// The plan of a node: its associations, and the places that their codes are.
#![tactic(auto)]

pub mod association;
pub mod draft;
mod grow;
pub mod limits;
pub mod plan;
pub mod questions;
