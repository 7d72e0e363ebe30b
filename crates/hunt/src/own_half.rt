// Own half first: up the codes that the node controls, then down the others.
ghost use Rattle.hunt.specs.Orders.{own_half_first};
ghost use Rattle.hunt.specs.Lawfuls.{own_half_first_lawful};

use crate::codes::Codes;
use crate::order::HuntOrder;
use crate::side::Side;

#[derive(Clone, Copy, PartialEq, Eq, Debug)]
pub struct OwnHalfFirst;

impl HuntOrder for OwnHalfFirst {
    ghost order = { λ _. own_half_first };

    ghost lawful = { λ o. own_half_first_lawful };

    fn code_at(&self, codes: Codes, position: u16) -> Option<u16> {
        let n = codes.size;
        if position >= n {
            return None;
        }
        let back = n - 1 - position;
        Some(match codes.side {
            Side::Even if position < n.div_ceil(2) => 2 * position,
            Side::Even => 2 * back + 1,
            Side::Odd if position < n / 2 => 2 * position + 1,
            Side::Odd => 2 * back,
        })
    }
}
