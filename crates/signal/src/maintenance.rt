// Maintenance orders.
use crate::range::Range;

#[derive(Clone, Copy)]
pub enum Maintenance {
    // Bar codes of a range from calls.
    Block,
    // Open them again.
    Unblock,
    // Reset the codes of a range.
    ResetGroup,
}

// An order that still waits for its answer: its range, and when it is repeated next.
#[derive(Clone, Copy)]
pub struct Unanswered {
    pub order: Maintenance,
    pub first: u16,
    pub range: Range,
    // After 30 seconds; off once 300 have passed.
    pub short: Option<u32>,
    // After 300 seconds, and with an alert.
    pub long: Option<u32>,
}
