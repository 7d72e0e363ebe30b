// Whether what the caller lends suffices.
ghost use Rattle.std.specs.Prelude.{◌≡◌};
ghost use Rattle.signal.specs.Refusals.{first_fitting, judged, Smallest};
ghost use Rattle.node.specs.Desks.{places};
ghost use Rattle.node.specs.Lent.{lent_cases};

use crate::node::Node;
use bearer::host::BearerHost;
use hunt::order::HuntOrder;
use signal::refusal::Refusal;

// What a caller lends: so many records of the code table, and lists of these lengths.
#[derive(Clone, Copy)]
pub struct Lent {
    pub codes: usize,
    pub messages: usize,
    pub notes: usize,
}

// No call writes more entries than that into a list, and each asks for room for as many.
pub const ENTRIES: usize = 96;

impl<H: BearerHost, O: HuntOrder> Node<H, O> {
    // Whether what is lent suffices.
    pub(crate) fn suffices(&self, lent: Lent) -> Result<(), Refusal>
        ensures value { result ≡ judged (first_fitting (lent_cases (places self.now) lent)) }
        ensures smallest { Smallest (lent_cases (places self.now) lent) }
    {
        if lent.messages < ENTRIES || lent.notes < ENTRIES {
            return Err(Refusal::Lists);
        }
        if lent.codes < usize::from(self.plan.places()) {
            return Err(Refusal::Table);
        }
        Ok(())
    }
}
