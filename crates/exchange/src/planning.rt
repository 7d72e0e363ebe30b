// A node in draft, and a plan's commands carried out on it.
ghost use Rattle.std.specs.Prelude.{◌≡◌, []};
ghost use Rattle.plan.specs.Drafts.{added};
ghost use Rattle.exchange.specs.Answers.{draft_answer, hunt_answer};
ghost use Rattle.exchange.specs.Plannings.{denied, plan_answer, plan_after};

use crate::answer::Answer;
use choice::order::Order;
use hunt::side::Side;
use plan::draft::Draft;
use plan::plan::Plan;
use signal::refusal::Refusal;
use std::marker::Model;
use std::mem;

// What can be asked of a node in draft.
#[derive(Clone, Copy)]
pub enum PlanCommand {
    // Draft one more association.
    Association { size: usize, side: Side },
    // Show the codes of an association in the order of a hunt.
    Hunt { order: Order, association: u16 },
}

// By its type none of its commands is ever out of turn.
#[derive(Drop)]
pub struct Planning {
    draft: Draft,
}

// Clauses see the codes of each association, in order.
impl Model for Planning {
    ghost use Rattle.std.specs.Prelude.{List};
    ghost use Rattle.hunt.specs.declared.codes.Codes.{Codes};

    ghost Value = { List Codes };

    ghost view = { λ p. p.draft };
}

impl Planning {
    // Nothing is drafted yet.
    pub fn new() -> Planning
        ensures { result ≡ [] }
    {
        Planning {
            draft: Draft::new(),
        }
    }

    // What was drafted so far.
    pub fn plan(&self) -> &Plan
        ensures { result.now ≡ self.now }
    {
        self.draft.plan()
    }

    // The draft, for a node to be opened over it.
    pub fn into_draft(self) -> Draft
        ensures { result ≡ self }
    {
        self.draft
    }

    // Carries out a command, or tells why it is refused.
    pub fn obey(&mut self, command: PlanCommand) -> Result<Answer, Refusal>
        ensures answer { denied result ≡ plan_answer self.old command }
        ensures after { self.new ≡ plan_after self.old command }
    {
        match command {
            PlanCommand::Association { size, side } => self.association(size, side),
            PlanCommand::Hunt { order, association } => hunted(self.plan(), order, association),
        }
    }

    // Drafts one more association.
    pub(crate) fn association(&mut self, size: usize, side: Side) -> Result<Answer, Refusal>
        ensures answer { denied result ≡ draft_answer size self.old }
        ensures after { self.new ≡ added self.old size side }
    {
        let draft = &mut self.draft;
        draft.fits(size)?;
        let before = draft.plan().places();
        let association = draft.plan().associations() + 1;
        *draft = mem::replace(draft, Draft::new()).add(size, side);
        Ok(Answer::Drafted {
            association,
            first: before + 1,
            last: before + size as u16,
        })
    }
}

// Shows the hunt over an association of a plan.
pub(crate) fn hunted(plan: &Plan, order: Order, association: u16) -> Result<Answer, Refusal>
    ensures { denied result ≡ hunt_answer association order plan.now }
{
    let found = plan.association(association).ok_or(Refusal::Association)?;
    Ok(Answer::Hunt {
        association,
        order,
        codes: found.codes,
    })
}
