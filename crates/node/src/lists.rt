// What is written into the caller's lists.
#![tactic(auto, unfolding(crate::specs::World::lift, crate::specs::World::looking, crate::specs::World::resting, crate::specs::World::sending, crate::specs::World::noting, crate::specs::Steps::sending_on))]

ghost use Rattle.node.specs.Desks.{Ready, Did};
ghost use Rattle.node.specs.Steps.{sending_on};
ghost use Rattle.node.specs.World.{noting};

use crate::desk::Desk;
use crate::node::Node;
use bearer::host::BearerHost;
use hunt::order::HuntOrder;
use signal::message::{Content, Message};
use signal::note::Note;

impl<H: BearerHost, O: HuntOrder> Node<H, O> {
    // Sends a message on a place. On place 0 nothing is sent.
    pub(crate) fn send_on(&self, desk: &mut Desk, place: u16, content: Content)
        requires { Ready 1 0 self.now desk.old }
        ensures { Did H.state O.order 1 0 (sending_on place content) self.now self.now desk.old desk.new }
    {
        if let Some(address) = self.plan.address(place) {
            desk.messages.push(Message {
                association: address.association,
                code: u32::from(address.code),
                content,
            });
        }
    }

    // Writes a note.
    pub(crate) fn note(&self, desk: &mut Desk, note: Note)
        requires { Ready 0 1 self.now desk.old }
        ensures { Did H.state O.order 0 1 (noting note) self.now self.now desk.old desk.new }
    {
        desk.notes.push(note);
    }
}
