// Hunt orders: in which order the codes of an association are tried for an outgoing call.
#![tactic(auto)]

pub mod codes;
pub mod first;
pub mod order;
pub mod own_half;
pub mod side;
pub mod straight;
