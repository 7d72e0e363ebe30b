// How the library is meant to be used. Each file of misuse/ turns this into something that must not compile.
#![tactic(auto)]

ghost use Rattle.std.specs.Prelude.{◌≡◌, [], ◌∷◌};
ghost use Rattle.plan.specs.Members.{drafted};
ghost use Rattle.hunt.specs.declared.side.Side.TheVariants.{Even, Odd};

use bearer::percall::PerCall;
use hunt::side::Side;
use hunt::straight::Straight;
use node::node::Node;
use plan::draft::Draft;
use signal::code::Code;

// Drafts two associations of four codes.
pub fn two_associations() -> Draft
    ensures { result ≡ drafted 4 Even ∷ (drafted 4 Odd ∷ []) }
{
    let draft = Draft::new();
    let draft = draft.add(4, Side::Even);
    draft.add(4, Side::Odd)
}

// Opens a node over them, with three bearers, and asks it how many places it has.
pub fn opened_places(table: &mut [Code]) -> u16
    ensures { result ≡ 8 }
{
    let draft = two_associations();
    let host = PerCall::new(3);
    let node = Node::open(draft, host, Straight, table);
    node.plan().places()
}
