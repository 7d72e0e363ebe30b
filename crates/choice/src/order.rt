// The hunt orders that can be chosen, as one hunt order.
ghost use Rattle.choice.specs.Orders.{named};
ghost use Rattle.hunt.specs.Lawfuls.{straight_lawful, own_half_first_lawful};
ghost use Rattle.choice.specs.declared.order.Order.TheVariants.{Straight, OwnHalfFirst};

use hunt::codes::Codes;
use hunt::order::HuntOrder;
use hunt::own_half::OwnHalfFirst;
use hunt::straight::Straight;

// An enum, for an order that is made here is handed out, as a host is.
#[derive(Clone, Copy, PartialEq, Eq, Debug)]
pub enum Order {
    Straight,
    OwnHalfFirst,
}

impl HuntOrder for Order {
    ghost order = { named };

    ghost lawful = { elim [ Straight ↦ straight_lawful | OwnHalfFirst ↦ own_half_first_lawful ] };

    fn code_at(&self, codes: Codes, position: u16) -> Option<u16> {
        match self {
            Order::Straight => Straight.code_at(codes, position),
            Order::OwnHalfFirst => OwnHalfFirst.code_at(codes, position),
        }
    }
}
