// What alters the node itself: its host, and the call numbers.
#![tactic(auto, unfolding(crate::specs::World::lift, crate::specs::World::changing, crate::specs::Steps::giving, crate::specs::Steps::seizing, crate::specs::Steps::settling, crate::specs::Steps::numbering))]

ghost use Rattle.std.specs.Prelude.{◌≡◌, ◌+◌, ◌<◌};
ghost use Rattle.node.specs.Desks.{Did};
ghost use Rattle.node.specs.declared.desk.Desk.{Desk};
ghost use Rattle.node.specs.Steps.{giving, seizing, settling, numbering};

use crate::node::Node;
use bearer::host::BearerHost;
use hunt::order::HuntOrder;

impl<H: BearerHost, O: HuntOrder> Node<H, O> {
    // Gives back the bearer of a place.
    pub(crate) fn give(&mut self, place: u16)
        ensures did { (d : Desk) → Did H.state O.order 0 0 (giving H.kit place) self.old self.new d d }
    {
        self.host.give(place);
    }

    // Seizes a bearer for a place, and tells whether there was one.
    pub(crate) fn seize(&mut self, place: u16) -> bool
        ensures seized { result ≡ H.kit.seizes (H.state self.old.host) place }
        ensures did { (d : Desk) → Did H.state O.order 0 0 (seizing H.kit place) self.old self.new d d }
    {
        self.host.seize(place)
    }

    // The bearer of a place is up.
    pub(crate) fn settle(&mut self, place: u16)
        ensures did { (d : Desk) → Did H.state O.order 0 0 (settling H.kit place) self.old self.new d d }
    {
        self.host.settle(place);
    }

    // Gives the next call number.
    pub(crate) fn next_call(&mut self) -> u32
        requires { self.old.calls < 999999999 }
        ensures next { result ≡ self.old.calls + 1 }
        ensures did { (d : Desk) → Did H.state O.order 0 0 numbering self.old self.new d d }
    {
        self.calls += 1;
        self.calls
    }
}
