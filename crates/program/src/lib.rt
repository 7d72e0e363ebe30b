// What every program that answers a script does.
#![tactic(auto)]

pub mod serve;
