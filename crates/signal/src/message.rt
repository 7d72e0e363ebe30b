// Messages. What a neighbour sends and what the node sends are of one kind.
use crate::digits::Digits;
use crate::range::Range;

// A message on a code of an association; for a group, that is the first code of its range.
#[derive(Clone, Copy)]
pub struct Message {
    pub association: u16,
    // Of 32 bits, so that one that no association has can be handed over, and refused.
    pub code: u32,
    pub content: Content,
}

#[derive(Clone, Copy)]
pub enum Content {
    // The route of an IAM is no part of it: whoever delivers one names the route beside it.
    Iam(Digits),
    Acm,
    Anm,
    // With its cause.
    Rel(u8),
    Rlc,
    Rsc,
    Grs(Range),
    Gra(Range),
    Cgb(Range),
    Cgu(Range),
    Cgba(Range),
    Cgua(Range),
}
