// The open node, with what its calls will work on: its own memory, and what the caller lends.
#![tactic(auto)]

mod bearers;
mod desk;
pub mod lent;
mod lists;
pub mod node;
pub mod open;
pub mod questions;
mod records;
