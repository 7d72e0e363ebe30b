// How a code reacts to a call message, by its state.
ghost use Rattle.std.specs.Prelude.{◌≡◌};
ghost use Rattle.signal.specs.Reactions.{reaction, row, column};

use crate::state::State;

// The messages that concern one code.
#[derive(Clone, Copy)]
pub enum CallMessage {
    Iam,
    Acm,
    Anm,
    Rel,
    Rlc,
    Rsc,
}

#[derive(Clone, Copy)]
pub enum Reaction {
    // The message is disregarded.
    Dash,
    Take,
    Reset,
    Ack,
    // With the cause of the REL.
    End,
    // With 41, for the neighbour has reset the code.
    EndReset,
    // With 111, for an RLC in the middle of a call.
    Release,
    Dual,
    Ring,
    Redo,
    Again,
    Answer,
    // The code becomes idle.
    Free,
    AckFree,
}

use Reaction::*;

// A row for each state, a column for each message: IAM, ACM, ANM, REL, RLC, RSC.
const REACTIONS: [[Reaction; 6]; 11] = [
    // Idle
    [Take, Reset, Reset, Ack, Dash, Ack],
    // InSet
    [Dash, Dash, Dash, End, Release, EndReset],
    // InRun
    [Dash, Dash, Dash, End, Release, EndReset],
    // InTalk
    [Dash, Dash, Dash, End, Release, EndReset],
    // OutWait
    [Dual, Ring, Redo, End, Release, Again],
    // OutRing
    [Dash, Dash, Answer, End, Release, EndReset],
    // OutHeld
    [Dash, Dash, Dash, End, Release, EndReset],
    // OutTalk
    [Dash, Dash, Dash, End, Release, EndReset],
    // Clearing
    [Dash, Dash, Dash, Ack, Free, AckFree],
    // Resetting
    [Dash, Dash, Dash, Ack, Free, Ack],
    // GroupReset
    [Dash, Dash, Dash, Ack, Dash, Ack],
];

impl State {
    // How a code in this state reacts to a message. An unknown state has no row, and disregards all.
    pub fn reaction(self, message: CallMessage) -> Reaction
        ensures { result ≡ reaction self message }
    {
        match self.row() {
            Some(row) => REACTIONS[row][message.column()],
            None => Dash,
        }
    }

    // A number, since the table is a constant with a row for each state; a state that carries a number
    // of its own cannot be cast to its row.
    fn row(self) -> Option<usize>
        ensures { result ≡ row self }
    {
        match self {
            State::Idle => Some(0),
            State::InSet => Some(1),
            State::InRun => Some(2),
            State::InTalk => Some(3),
            State::OutWait => Some(4),
            State::OutRing => Some(5),
            State::OutHeld => Some(6),
            State::OutTalk => Some(7),
            State::Clearing => Some(8),
            State::Resetting => Some(9),
            State::GroupReset => Some(10),
            State::Unknown(_) => None,
        }
    }
}

impl CallMessage {
    fn column(self) -> usize
        ensures { result ≡ column self }
    {
        self as usize
    }
}
