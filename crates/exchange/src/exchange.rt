// A node from its draft on, with the memory that its calls are lent.
use crate::stage::Stage;
use node::lent::Lent;
use plan::limits::PLACES;
use signal::code::Code;

// `lent` is what later calls are lent.
// No Model: a site holds functions, as the hunt order is, and the value of a model must be data.
#[derive(Drop)]
pub struct Exchange {
    pub(crate) stage: Stage,
    pub(crate) table: [Code; PLACES],
    pub(crate) lent: Lent,
}
