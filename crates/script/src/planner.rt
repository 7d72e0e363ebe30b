// Runs a script that plans, line by line.
ghost use Rattle.std.specs.Prelude.{◌≡◌, ◌++◌, true, IfOk, string_bytes};
ghost use Rattle.exchange.specs.Sites.{plan_of};
ghost use Rattle.reading.specs.Lines.{knows_line};
ghost use Rattle.script.specs.Plans.{Plans, Carried, is_draft};
ghost use Rattle.script.specs.Texts.{line_text};
ghost use Rattle.script.specs.Tallies.{standing, fresh, after, tally_of};

use crate::runner::Runner;
use crate::tally::Tally;
use reading::known::Known;
use reading::line::Line;
use std::fmt;

// A script that plans, under way. It never comes to an open node, so that no line of it is out of turn.
#[derive(Drop)]
pub struct Planner {
    runner: Runner,
    ghost drafts: { is_draft (standing runner).site.stage ≡ true },
}

impl Planner {
    // A script of which no line was read.
    pub fn new() -> Planner
        ensures { standing result.runner ≡ fresh }
    {
        Planner {
            runner: Runner::new(),
        }
    }

    // Carries out the next line, writes what it is answered, and tells what it was.
    pub fn line<'a>(&mut self, line: &'a [u8], out: &mut String) -> Result<Line<'a>, fmt::Error>
        ensures known { IfOk result (λ l. knows_line Known.Planning l ≡ true) }
        ensures stands { IfOk result (λ l. standing self.new.runner ≡ after l (standing self.old.runner)) }
        ensures writes { IfOk result (λ l. string_bytes out.new ≡ string_bytes out.old ++ line_text l (standing self.old.runner)) }
        ensures carried { Carried Known.Planning (standing self.old.runner) (standing self.new.runner) }
        ensures plans { IfOk result (λ l. Plans l (standing self.old.runner) (standing self.new.runner) (plan_of (standing self.old.runner).site.stage)) }
    {
        self.runner.line(Known::Planning, line, out)
    }

    // What the script came to so far.
    pub fn tally(&self) -> Tally
        ensures { result ≡ tally_of (standing self.now.runner) }
    {
        self.runner.tally()
    }
}
