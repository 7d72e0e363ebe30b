// Notes: what the node tells its operator.

#[derive(Clone, Copy)]
pub enum Note {
    // A call ended.
    Record(CallRecord),
    // A long timer of a code ran out.
    AlertPlace(u16),
    // An order of an association went unanswered for long.
    AlertAssociation(u16),
}

// The one record of a call, with the place of its incoming code.
#[derive(Clone, Copy)]
pub struct CallRecord {
    pub call: u32,
    pub place: u16,
    pub cause: u8,
    pub talk: u32,
    pub units: u32,
}
