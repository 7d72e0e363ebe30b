// The codes of an association that the node controls: the even or the odd ones.
#[derive(Clone, Copy, PartialEq, Eq, Debug)]
pub enum Side {
    Even,
    Odd,
}
