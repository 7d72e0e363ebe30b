// What a command is answered.
use bearer::phase::Phase;
use choice::order::Order;
use hunt::codes::Codes;
use plan::association::Address;
use signal::code::Code;

#[derive(Clone, Copy)]
pub enum Answer {
    // An association was drafted, with these places.
    Drafted {
        association: u16,
        first: u16,
        last: u16,
    },
    // The codes of an association are hunted in that order.
    Hunt {
        association: u16,
        order: Order,
        codes: Codes,
    },
    // The node is open, with so many associations and places.
    Opened {
        associations: u16,
        places: u16,
    },
    // The code that a place is, its record and its phase.
    Shown {
        place: u16,
        address: Address,
        code: Code,
        phase: Phase,
    },
    // The phase of a place.
    Phase(Phase),
    // Whether a bearer is kept for a place.
    Kept(bool),
    // The record was written.
    Poked,
    // It was done.
    Done,
}
