// The record of a code: one entry of the code table.
ghost use Rattle.std.specs.Prelude.{◌≡◌};
ghost use Rattle.signal.specs.Records.{blank};

use crate::digits::Digits;
use crate::state::State;

// What a state has no use for is blank: 0, without digits, or off.
#[derive(Clone, Copy, Default)]
pub struct Code {
    pub state: State,
    // The place of the code at the call's other end in this node; 0 is none.
    // No `Option`: others may write any number into the table, and 0 is one of them.
    pub partner: u16,
    // Own block: the node bars the code from calls.
    pub own: bool,
    // Peer block: the neighbour bars it.
    pub peer: bool,
    // The call's number, its route and the digits called stand on its incoming code.
    pub call: u32,
    pub route: u16,
    pub digits: Digits,
    // When the call was answered.
    pub answered: u32,
    // The cause of the REL that was sent.
    pub cause: u8,
    // When the state's timer runs out: TB, T7, T9, T1 or T16. None is off.
    pub short: Option<u32>,
    // When its timer of 300 seconds runs out: T5 or T17. None is off.
    pub long: Option<u32>,
}

impl Code {
    // The record of an idle code without a block or a partner.
    pub fn blank() -> Code
        ensures { result ≡ blank }
    {
        Code::default()
    }
}
