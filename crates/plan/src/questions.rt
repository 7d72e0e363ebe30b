// Questions to a plan.
ghost use Rattle.std.specs.Prelude.{◌≡◌, ◌+◌, ◌<◌, ◌≤◌, true, length, is_some, IfSome, Some};
ghost use Rattle.std.specs.Option.{option_map};
ghost use Rattle.plan.specs.Kept.{sized};
ghost use Rattle.plan.specs.Members.{places_of, is_place_of, association_of, address, address_of, place_of};

use crate::association::{Address, Association};
use crate::plan::Plan;

impl Plan {
    // What holds of every plan. Nothing is done: a proof calls it for what it ensures.
    #[tactic(auto, using(crate::proofs::Layouts::owned_places))]
    pub fn limits(&self)
        ensures few { length self.now ≤ 128 }
        ensures fair { sized self.now ≡ true }
        ensures room { places_of self.now ≤ 4096 }
    {
        let _ = &self.associations;
    }

    // How many associations there are. Each has 1 to 256 codes.
    pub fn associations(&self) -> u16
        ensures value { result ≡ length self.now }
        ensures few { result ≤ 128 }
        ensures fair { sized self.now ≡ true }
    {
        self.associations.len() as u16
    }

    // How many places there are.
    #[tactic(auto, using(crate::proofs::Layouts::owned_places))]
    pub fn places(&self) -> u16
        ensures value { result ≡ places_of self.now }
        ensures room { result ≤ 4096 }
    {
        self.owners.len() as u16
    }

    // The codes and the first place of an association. All of them are places.
    pub fn association(&self, number: u16) -> Option<Association>
        ensures value { result ≡ association_of self.now number }
        ensures within { IfSome result (λ a. a.first + a.codes.size ≤ 4097) }
        ensures fair { IfSome result (λ a. (1 ≤ a.codes.size) × (a.codes.size ≤ 256)) }
        ensures few { is_some result ≡ true → number ≤ 128 }
    {
        let index = usize::from(number).checked_sub(1)?;
        self.associations.get(index).copied()
    }

    // The place of a code, or none where there is no such code.
    #[tactic(auto, using(crate::proofs::Places::addresses))]
    pub fn place(&self, association: u16, code: u32) -> Option<u16>
        ensures value { result ≡ place_of self.now association code }
        ensures inverse { IfSome result (λ p. address_of self.now p ≡ Some (address association code)) }
        ensures limit { IfSome result (λ p. (1 ≤ p) × (p ≤ 4096)) }
    {
        let Association { first, codes } = self.association(association)?;
        if code >= u32::from(codes.size) {
            return None;
        }
        Some(first + code as u16)
    }

    // The association and code that a place is, or none where there is no such place.
    pub fn address(&self, place: u16) -> Option<Address>
        ensures value { result ≡ address_of self.now place }
        ensures inverse { IfSome result (λ x. place_of self.now x.association x.code ≡ Some place) }
        ensures within { is_some result ≡ is_place_of self.now place }
        ensures limit { is_some result ≡ true → place ≤ 4096 }
        ensures few { IfSome result (λ x. x.association ≤ 128) }
        ensures small { IfSome result (λ x. x.code < 256) }
    {
        let association = self.owner(place)?;
        let code = place - self.association(association)?.first;
        Some(Address { association, code })
    }

    // The association of a place. A question of its own, on which `address` is proved.
    fn owner(&self, place: u16) -> Option<u16>
        ensures value { result ≡ option_map (λ x. x.association) (address_of self.now place) }
        ensures inverse { IfSome (address_of self.now place) (λ x. place_of self.now x.association x.code ≡ Some place) }
        ensures within { is_some result ≡ is_place_of self.now place }
        ensures limit { is_some result ≡ true → place ≤ 4096 }
    {
        let index = usize::from(place).checked_sub(1)?;
        Some(u16::from(*self.owners.get(index)?))
    }
}
