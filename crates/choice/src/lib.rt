// The hunt orders and the bearer hosts that a program chooses by name, each as one type.
#![tactic(auto)]

pub mod host;
pub mod order;
