// What a line of a script is: passed over, as a comment is, a command, or in error.
use crate::fault::Fault;
use exchange::command::Command;

pub type Line<'a> = Result<Option<Command>, Fault<'a>>;
