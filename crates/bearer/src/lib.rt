// Bearer hosts: who sets up and gives back the bearers of a node's calls.
#![tactic(auto)]

pub mod by_place;
pub mod closed;
pub mod host;
pub mod percall;
pub mod phase;
pub mod reuse;
