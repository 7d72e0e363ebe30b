// Opening.
ghost use Rattle.std.specs.Prelude.{◌≡◌, length, replicate};
ghost use Rattle.bearer.specs.Phases.{Cleared};
ghost use Rattle.signal.specs.Records.{blank};
ghost use Rattle.node.specs.Opening.{opened};
ghost use Rattle.node.specs.Desks.{world_of};
ghost use Rattle.node.specs.World.{next_call};

use crate::node::Node;
use bearer::host::BearerHost;
use hunt::order::HuntOrder;
use plan::draft::Draft;
use plan::limits::ASSOCIATIONS;
use signal::code::Code;

impl<H: BearerHost, O: HuntOrder> Node<H, O> {
    // Opens a node over what was drafted. The draft, the host and the hunt order are used up, and
    // every record of the table that is lent becomes blank.
    #[tactic(auto, using(crate::proofs::Blanks::take_blank))]
    pub fn open(draft: Draft, mut host: H, way: O, table: &mut [Code]) -> Node<H, O>
        ensures world { world_of H.state O.order result table.new ≡ opened H.kit (H.state host) (O.order way) draft (length table.old) }
        ensures table { table.new ≡ replicate (length table.old) blank }
        ensures phases { Cleared H.kit (H.state result.host) }
        ensures first { next_call (world_of H.state O.order result table.new) ≡ 1 }
    {
        host.clear();
        table.fill(Code::blank());
        Node {
            host,
            order: way,
            plan: draft.into_plan(),
            orders: [None; ASSOCIATIONS],
            time: 0,
            calls: 0,
        }
    }
}
