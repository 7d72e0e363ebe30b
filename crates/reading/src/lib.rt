// Commands read from lines of text.
#![tactic(auto)]

mod digits;
pub mod fault;
pub mod known;
pub mod line;
mod names;
mod numbers;
pub mod read;
mod words;
