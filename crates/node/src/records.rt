// The one reader and the one writer of the code table.
#![tactic(auto, unfolding(crate::specs::World::lift, crate::specs::World::changing, crate::specs::Steps::writing, crate::specs::Places::at, crate::specs::Places::put))]

ghost use Rattle.std.specs.Prelude.{◌≡◌, ◌≤◌};
ghost use Rattle.node.specs.Desks.{places, world_of, Ready, Did};
ghost use Rattle.node.specs.Places.{at};
ghost use Rattle.node.specs.Steps.{writing};

use crate::desk::Desk;
use crate::node::Node;
use bearer::host::BearerHost;
use hunt::order::HuntOrder;
use signal::code::Code;

impl<H: BearerHost, O: HuntOrder> Node<H, O> {
    // The record of a place. Place 0, which means none, reads as a blank one.
    pub(crate) fn code(&self, desk: &Desk, place: u16) -> Code
        requires { (Ready 0 0 self.now desk.now) × (place ≤ places self.now) }
        ensures { result ≡ at (world_of H.state O.order self.now desk.now.table.now).table place }
    {
        match place.checked_sub(1) {
            Some(index) => desk.table[usize::from(index)],
            None => Code::blank(),
        }
    }

    // Writes the record of a place. Place 0 is never written.
    pub(crate) fn write(&self, desk: &mut Desk, place: u16, code: Code)
        requires { (Ready 0 0 self.now desk.old) × (place ≤ places self.now) }
        ensures { Did H.state O.order 0 0 (writing place code) self.now self.now desk.old desk.new }
    {
        if let Some(index) = place.checked_sub(1) {
            desk.table[usize::from(index)] = code;
        }
    }
}
