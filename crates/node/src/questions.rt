// Questions to an open node. They alter nothing.
ghost use Rattle.std.specs.Prelude.{◌≡◌};

use crate::node::Node;
use bearer::host::BearerHost;
use bearer::phase::Phase;
use hunt::order::HuntOrder;
use plan::plan::Plan;

impl<H: BearerHost, O: HuntOrder> Node<H, O> {
    // How far the bearer of a place has come.
    pub fn phase(&self, place: u16) -> Phase
        ensures { result ≡ H.kit.phase (H.state self.now.host) place }
    {
        self.host.phase(place)
    }

    // The host, for questions.
    pub fn host(&self) -> &H
        ensures { result.now ≡ self.now.host }
    {
        &self.host
    }

    // The time that the last clock call set.
    pub fn time(&self) -> u32
        ensures { result ≡ self.now.time }
    {
        self.time
    }

    // The call number given last; 0 before the first.
    pub fn last_call(&self) -> u32
        ensures { result ≡ self.now.calls }
    {
        self.calls
    }

    // The associations and places.
    pub fn plan(&self) -> &Plan
        ensures { result.now ≡ self.now.plan }
    {
        &self.plan
    }
}
