// The draft of a node, which takes associations until the node is opened.
ghost use Rattle.std.specs.Prelude.{◌≡◌, true, List, [], is_some};
ghost use Rattle.hunt.specs.declared.codes.Codes.{Codes};
ghost use Rattle.signal.specs.Refusals.{Smallest, judged};
ghost use Rattle.plan.specs.Drafts.{draft_cases, draft_refusal, added};

use crate::limits::{ASSOCIATIONS, CODES, PLACES};
use crate::plan::Plan;
use hunt::codes::Codes;
use hunt::side::Side;
use signal::refusal::Refusal;
use std::marker::Model;

// A draft is handed on by each addition, so that nothing is left of it behind.
#[derive(Drop)]
pub struct Draft {
    plan: Plan,
}

// Clauses see the codes of each association, in order.
impl Model for Draft {
    ghost Value = { List Codes };

    ghost view = { λ d. d.plan };
}

impl Draft {
    // A draft without associations.
    pub fn new() -> Draft
        ensures { result ≡ [] }
    {
        Draft {
            plan: Plan::empty(),
        }
    }

    // What was drafted so far.
    pub fn plan(&self) -> &Plan
        ensures { result.now ≡ self.now }
    {
        &self.plan
    }

    // The plan that was drafted, with nothing left of the draft.
    pub fn into_plan(self) -> Plan
        ensures { result ≡ self }
    {
        self.plan
    }

    // Whether an association of that size fits, and if not, why.
    pub fn fits(&self, size: usize) -> Result<(), Refusal>
        ensures value { result ≡ judged (draft_refusal self.now size) }
        ensures smallest { Smallest (draft_cases self.now size) }
    {
        if size == 0 || size > CODES {
            return Err(Refusal::Size);
        }
        if usize::from(self.plan.associations()) >= ASSOCIATIONS
            || usize::from(self.plan.places()) + size > PLACES
        {
            return Err(Refusal::Full);
        }
        Ok(())
    }

    // Hands the draft on with one more association, unaltered where it does not fit.
    pub fn add(self, size: usize, side: Side) -> Draft
        ensures value { result ≡ added self size side }
        ensures unaltered { is_some (draft_refusal self size) ≡ true → result ≡ self }
    {
        if self.fits(size).is_err() {
            return self;
        }
        let size = size as u16;
        Draft {
            plan: self.plan.grown(Codes { size, side }),
        }
    }
}
