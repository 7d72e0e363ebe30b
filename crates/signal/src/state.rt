// The states of a code, and their names.
ghost use Rattle.std.specs.Prelude.{Some};
ghost use Rattle.signal.specs.Words.{state_text};

use std::fmt;

// An In state is that of the incoming code of a call, an Out state that of the outgoing one.
#[derive(Clone, Copy, Default)]
pub enum State {
    // Free.
    #[default]
    Idle,
    // An IAM was taken, and the bearer is being set up.
    InSet,
    // The call went on over an outgoing code, and is not answered yet.
    InRun,
    // The call is answered.
    InTalk,
    // IAM was sent, and nothing came back yet.
    OutWait,
    // ACM came.
    OutRing,
    // A held answer: ANM came, but the bearer is still forming.
    OutHeld,
    // The call is answered.
    OutTalk,
    // REL was sent, and RLC is awaited.
    Clearing,
    // RSC was sent, and RLC is awaited.
    Resetting,
    // GRS was sent for a range with this code, and GRA is awaited.
    GroupReset,
    // None of the eleven: something other than the node wrote it into the table.
    Unknown(u8),
}

// By its name; an unknown state, by its number.
impl fmt::Display for State {
    ghost output = { λ state. Some (state_text state) };

    fn fmt<W: fmt::Write>(&self, f: &mut fmt::Formatter<W>) -> fmt::Result {
        match self {
            State::Idle => f.write_str("Idle"),
            State::InSet => f.write_str("InSet"),
            State::InRun => f.write_str("InRun"),
            State::InTalk => f.write_str("InTalk"),
            State::OutWait => f.write_str("OutWait"),
            State::OutRing => f.write_str("OutRing"),
            State::OutHeld => f.write_str("OutHeld"),
            State::OutTalk => f.write_str("OutTalk"),
            State::Clearing => f.write_str("Clearing"),
            State::Resetting => f.write_str("Resetting"),
            State::GroupReset => f.write_str("GroupReset"),
            State::Unknown(number) => write!(f, "{number}"),
        }
    }
}
