// The codes of an association.
use crate::side::Side;

// How many codes there are, and which of them the node controls.
#[derive(Clone, Copy, PartialEq, Eq, Debug)]
pub struct Codes {
    pub size: u16,
    pub side: Side,
}
