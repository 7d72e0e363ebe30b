// Straight: up where the node controls the even codes, down where it controls the odd ones.
ghost use Rattle.hunt.specs.Orders.{straight};
ghost use Rattle.hunt.specs.Lawfuls.{straight_lawful};

use crate::codes::Codes;
use crate::order::HuntOrder;
use crate::side::Side;

#[derive(Clone, Copy, PartialEq, Eq, Debug)]
pub struct Straight;

impl HuntOrder for Straight {
    ghost order = { λ _. straight };

    ghost lawful = { λ o. straight_lawful };

    fn code_at(&self, codes: Codes, position: u16) -> Option<u16> {
        if position >= codes.size {
            return None;
        }
        Some(match codes.side {
            Side::Even => position,
            Side::Odd => codes.size - 1 - position,
        })
    }
}
