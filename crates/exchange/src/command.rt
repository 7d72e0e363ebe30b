// What can be asked for.
use choice::host::HostKind;
use choice::order::Order;
use hunt::side::Side;
use signal::code::Code;

#[derive(Clone, Copy)]
pub enum Command {
    // Draft one more association.
    Association {
        size: usize,
        side: Side,
    },
    // Show the codes of an association in the order of a hunt.
    Hunt {
        order: Order,
        association: u16,
    },
    // Open the node over what was drafted.
    Open {
        order: Order,
        host: HostKind,
        bearers: usize,
    },
    // Show the record of a place.
    Show(u16),
    // Show the phase of a place.
    Phase(u16),
    // Show whether the host keeps a bearer for a place.
    Kept(u16),
    // Write the record of a place, as something other than the node might.
    Poke {
        place: u16,
        code: Code,
    },
    // Lend lists of these lengths to later calls.
    Lists {
        messages: usize,
        notes: usize,
    },
    // Lend so many records of the table to later calls.
    Table(usize),
}
