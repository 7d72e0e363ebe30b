// The associations of a node in their order, with what always holds of them.
ghost use Rattle.std.specs.Prelude.{List};
ghost use Rattle.hunt.specs.declared.codes.Codes.{Codes};
ghost use Rattle.plan.specs.Members.{members};
ghost use Rattle.plan.specs.Kept.{Kept};

use crate::association::Association;
use crate::limits::{ASSOCIATIONS, PLACES};
use arrayvec::ArrayVec;
use std::marker::Model;

// Association a stands at index a - 1. A place is a code by its number in the plan, from 1 on;
// place 0 means none. `owners` has at index p - 1 the association whose code place p is, so that no
// question needs a search.
#[derive(Drop)]
pub struct Plan {
    pub(crate) associations: ArrayVec<Association, ASSOCIATIONS>,
    pub(crate) owners: ArrayVec<u8, PLACES>,
}

// Clauses see the codes of each association, in order.
impl Model for Plan {
    ghost Value = { List Codes };

    ghost view = { λ p. members p.associations.items };

    ghost invariant = { λ p. Kept p.associations.items p.owners.items };
}
