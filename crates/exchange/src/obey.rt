// Commands carried out.
ghost use Rattle.std.specs.Prelude.{◌≡◌};
ghost use Rattle.exchange.specs.Sites.{site_of, fresh_site, stage_of, plan_of};
ghost use Rattle.exchange.specs.Answers.{answer_of, Obeyed};

use crate::answer::Answer;
use crate::command::Command;
use crate::denial::Denial;
use crate::exchange::Exchange;
use crate::planning::{Planning, hunted};
use crate::stage::Stage;
use bearer::host::BearerHost;
use choice::host::{Host, HostKind};
use choice::order::Order;
use hunt::side::Side;
use node::lent::{ENTRIES, Lent};
use node::node::Node;
use plan::limits::PLACES;
use plan::plan::Plan;
use signal::code::Code;
use signal::refusal::Refusal;
use std::mem;

impl Exchange {
    // Nothing is drafted yet.
    pub fn new() -> Exchange
        ensures { site_of result ≡ fresh_site }
    {
        Exchange {
            stage: Stage::Drafting(Planning::new()),
            table: [Code::blank(); PLACES],
            lent: Lent {
                codes: PLACES,
                messages: ENTRIES,
                notes: ENTRIES,
            },
        }
    }

    // What was drafted so far, or what the node was opened over.
    pub fn plan(&self) -> &Plan
        ensures { result.now ≡ plan_of (stage_of self.now) }
    {
        match &self.stage {
            Stage::Drafting(planning) => planning.plan(),
            Stage::Open(node) => node.plan(),
        }
    }

    // Carries out a command, or tells why not.
    pub fn obey(&mut self, command: Command) -> Result<Answer, Denial>
        ensures { Obeyed command (site_of self.old) (site_of self.new) result }
    {
        match command {
            Command::Association { size, side } => self.association(size, side),
            Command::Hunt { order, association } => self.hunt(order, association),
            Command::Open {
                order,
                host,
                bearers,
            } => self.open(order, host, bearers),
            Command::Show(place) => self.show(place),
            Command::Phase(place) => self.phase(place),
            Command::Kept(place) => self.kept(place),
            Command::Poke { place, code } => self.poke(place, code),
            Command::Lists { messages, notes } => self.lists(messages, notes),
            Command::Table(codes) => self.table(codes),
        }
    }

    // Drafts one more association.
    fn association(&mut self, size: usize, side: Side) -> Result<Answer, Denial>
        ensures { Obeyed (Command.Association size side) (site_of self.old) (site_of self.new) result }
    {
        Ok(self.stage.drafting()?.association(size, side)?)
    }

    // Shows the hunt over an association.
    fn hunt(&self, order: Order, association: u16) -> Result<Answer, Denial>
        ensures { result ≡ answer_of (site_of self.now) (Command.Hunt order association) }
    {
        Ok(hunted(self.plan(), order, association)?)
    }

    // Opens the node over what was drafted.
    fn open(&mut self, order: Order, host: HostKind, bearers: usize) -> Result<Answer, Denial>
        ensures { Obeyed (Command.Open order host bearers) (site_of self.old) (site_of self.new) result }
    {
        let draft = mem::replace(self.stage.drafting()?, Planning::new()).into_draft();
        let associations = draft.plan().associations();
        let places = draft.plan().places();
        let host = Host::new(host, bearers);
        self.stage = Stage::Open(Node::open(draft, host, order, &mut self.table));
        Ok(Answer::Opened {
            associations,
            places,
        })
    }

    // Shows the record of a place.
    fn show(&self, place: u16) -> Result<Answer, Denial>
        ensures { result ≡ answer_of (site_of self.now) (Command.Show place) }
    {
        let node = self.stage.opened()?;
        let address = node.plan().address(place).ok_or(Refusal::Place)?;
        Ok(Answer::Shown {
            place,
            address,
            code: self.table[place as usize - 1],
            phase: node.phase(place),
        })
    }

    // Shows the phase of a place.
    fn phase(&self, place: u16) -> Result<Answer, Denial>
        ensures { result ≡ answer_of (site_of self.now) (Command.Phase place) }
    {
        let node = self.stage.opened()?;
        Ok(Answer::Phase(node.phase(place)))
    }

    // Shows whether the host keeps a bearer for a place.
    fn kept(&self, place: u16) -> Result<Answer, Denial>
        ensures { result ≡ answer_of (site_of self.now) (Command.Kept place) }
    {
        let node = self.stage.opened()?;
        Ok(Answer::Kept(node.host().keeps(place)))
    }

    // Writes the record of a place.
    fn poke(&mut self, place: u16, code: Code) -> Result<Answer, Denial>
        ensures { Obeyed (Command.Poke place code) (site_of self.old) (site_of self.new) result }
    {
        let node = self.stage.opened()?;
        node.plan().address(place).ok_or(Refusal::Place)?;
        self.table[place as usize - 1] = code;
        Ok(Answer::Poked)
    }

    // Sets how long the lists are that calls are lent.
    fn lists(&mut self, messages: usize, notes: usize) -> Result<Answer, Denial>
        ensures { Obeyed (Command.Lists messages notes) (site_of self.old) (site_of self.new) result }
    {
        self.stage.opened()?;
        self.lent.messages = messages;
        self.lent.notes = notes;
        Ok(Answer::Done)
    }

    // Sets how many records of the table calls are lent.
    fn table(&mut self, codes: usize) -> Result<Answer, Denial>
        ensures { Obeyed (Command.Table codes) (site_of self.old) (site_of self.new) result }
    {
        self.stage.opened()?;
        self.lent.codes = codes;
        Ok(Answer::Done)
    }
}
