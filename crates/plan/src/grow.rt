// How a plan is made: an empty one, and one association more.
ghost use Rattle.std.specs.Prelude.{◌≡◌, ◌+◌, ◌<◌, ◌≤◌, [], ◌∷◌, ◌++◌, length, replicate};
ghost use Rattle.arrayvec.specs.ArrayVec.{array_vec_len};
ghost use Rattle.plan.specs.Members.{places_of};

use crate::association::Association;
use crate::limits::PLACES;
use crate::plan::Plan;
use arrayvec::ArrayVec;
use hunt::codes::Codes;

impl Plan {
    pub(crate) fn empty() -> Plan
        ensures { result ≡ [] }
    {
        Plan {
            associations: ArrayVec::new(),
            owners: ArrayVec::new(),
        }
    }

    // The plan with one more association, which fits.
    pub(crate) fn grown(mut self, codes: Codes) -> Plan
        requires some { 1 ≤ codes.size }
        requires small { codes.size ≤ 256 }
        requires few { length self < 128 }
        requires room { places_of self + codes.size ≤ 4096 }
        ensures { result ≡ self ++ codes ∷ [] }
    {
        let first = self.owners.len() as u16 + 1;
        self.associations.push(Association { first, codes });
        let number = self.associations.len() as u8;
        own(&mut self.owners, codes.size, number);
        self
    }
}

// Makes the next `n` places those of an association.
// By pushes, since `extend` answers a Result, and there is room.
fn own(owners: &mut ArrayVec<u8, PLACES>, n: u16, association: u8)
    requires { array_vec_len owners.old + n ≤ 4096 }
    ensures { owners.new.items ≡ owners.old.items ++ replicate n association }
{
    for _ in 0..n {
        owners.push(association);
    }
}
