// The open node, with what always holds of it.
ghost use Rattle.std.specs.Prelude.{◌≡◌, ◌≤◌};

use plan::limits::ASSOCIATIONS;
use plan::plan::Plan;
use signal::maintenance::Unanswered;

// `calls` is the call number given last, and `orders` has at index a - 1 the order of
// association a that waits for its answer. Contracts read a node by `world_of`, and no `Model`,
// whose Value cannot name the host's State.
#[derive(Drop)]
pub struct Node<H, O> {
    pub(crate) host: H,
    pub(crate) order: O,
    pub(crate) plan: Plan,
    // Apart from the plan, which never alters.
    pub(crate) orders: [Option<Unanswered>; ASSOCIATIONS],
    pub(crate) time: u32,
    pub(crate) calls: u32,
    ghost timely: { time ≤ 4000000000 },
    ghost numbered: { calls ≤ 999999999 },
}
