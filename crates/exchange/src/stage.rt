// A node in draft, or open.
ghost use Rattle.std.specs.Prelude.{◌≡◌, IfOk, IfErr};
ghost use Rattle.std.specs.Borrow.{LendsIfOk, sem};

use crate::denial::Turn;
use crate::planning::Planning;
use choice::host::Host;
use choice::order::Order;
use node::node::Node;

// A node is drafted, and then it is open.
#[derive(Drop)]
pub(crate) enum Stage {
    Drafting(Planning),
    Open(Node<Host, Order>),
}

impl Stage {
    ghost use Rattle.exchange.specs.contracts.planning.Planning.{the_row as planning_row};
    ghost use Rattle.exchange.specs.contracts.stage.Stage.{the_row};
    ghost use Rattle.exchange.specs.Sites.{IsDrafting, IsOpen};

    // The draft, until the node is open.
    pub(crate) fn drafting(&mut self) -> Result<&mut Planning, Turn>
        ensures* lends { sem 𝓛 (LendsIfOk the_row planning_row self.entry result Stage.Drafting self.old) }
        ensures draft { IfOk result (λ planning. self.old ≡ Stage.Drafting planning.now) }
        ensures open { IfErr result (λ turn. (turn ≡ Turn.Open) × IsOpen self.old) }
    {
        match self {
            Stage::Drafting(planning) => Ok(planning),
            Stage::Open(_) => Err(Turn::Open),
        }
    }

    // The node, once it is open.
    pub(crate) fn opened(&self) -> Result<&Node<Host, Order>, Turn>
        ensures node { IfOk result (λ node. self.now ≡ Stage.Open node.now) }
        ensures draft { IfErr result (λ turn. (turn ≡ Turn.NotOpen) × IsDrafting self.now) }
    {
        match self {
            Stage::Drafting(_) => Err(Turn::NotOpen),
            Stage::Open(node) => Ok(node),
        }
    }
}
