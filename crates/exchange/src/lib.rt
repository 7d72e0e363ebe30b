// A node under command: drafted, opened, worked with and asked, one command after another.
#![tactic(auto)]

pub mod answer;
pub mod command;
pub mod denial;
pub mod exchange;
pub mod obey;
pub mod planning;
mod stage;
mod text;
