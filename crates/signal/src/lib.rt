// The vocabulary of a transit node: what it takes in, what it gives out,
// what it remembers of a code, and how that is written.
#![tactic(auto)]

pub mod cause;
pub mod charge;
pub mod code;
pub mod digits;
pub mod due;
pub mod flag;
pub mod maintenance;
pub mod message;
pub mod note;
pub mod range;
pub mod reaction;
pub mod record;
pub mod refusal;
pub mod state;
pub mod verdict;
