// Runs a script, line by line.
ghost use Rattle.std.specs.Prelude.{◌≡◌, List, ◌++◌, true, IfOk, IfSome, string_bytes, OnOk};
ghost use Rattle.hunt.specs.declared.codes.Codes.{Codes};
ghost use Rattle.exchange.specs.Sites.{drafting};
ghost use Rattle.reading.specs.Lines.{Line, knows_line};
ghost use Rattle.exchange.specs.Answers.{answer_of};
ghost use Rattle.script.specs.Plans.{Plans, Carried};
ghost use Rattle.script.specs.Texts.{error_line, told_line, line_text, Transcribed};
ghost use Rattle.script.specs.Tallies.{standing, fresh, obeyed, faulted, after, tally_of};

use crate::tally::Tally;
use exchange::command::Command;
use exchange::denial::Denial;
use exchange::exchange::Exchange;
use reading::known::Known;
use reading::line::Line;
use reading::read;
use std::alloc::Global;
use std::fmt;
use std::fmt::Write;

// A script under way: the node that it works with, and what it came to so far.
// No Model, as the exchange has none: clauses read it by `standing`.
#[derive(Drop)]
pub struct Runner {
    exchange: Exchange,
    lines: u64,
    answered: u64,
    refused: u64,
    errors: u64,
}

// What a whole script wrote, and whether no line of it was in error.
#[derive(Drop)]
pub struct Ran {
    pub text: String,
    pub clean: bool,
}

// Runs a whole script, from text to text. A program has neither text whole, and goes line by line.
pub fn run(heap: Global, known: Known, script: &str) -> Result<Ran, fmt::Error>
    ensures { IfOk result (λ x. (ls : List Line) × Transcribed known ls (string_bytes x.text) x.clean) }
{
    let mut text = String::new(heap);
    let mut runner = Runner::new();
    for line in script.lines() {
        let _ = runner.line(known, line.as_bytes(), &mut text)?;
    }
    let tally = runner.tally();
    writeln!(text, "{tally}")?;
    Ok(Ran {
        text,
        clean: tally.errors == 0,
    })
}

impl Runner {
    // A script of which no line was read.
    pub fn new() -> Runner
        ensures { standing result ≡ fresh }
    {
        Runner {
            exchange: Exchange::new(),
            lines: 0,
            answered: 0,
            refused: 0,
            errors: 0,
        }
    }

    // Carries out the next line, of which these commands are known, writes what it is answered, and
    // tells what it was.
    pub fn line<'a>(
        &mut self,
        known: Known,
        line: &'a [u8],
        out: &mut String,
    ) -> Result<Line<'a>, fmt::Error>
        ensures known { IfOk result (λ l. knows_line known l ≡ true) }
        ensures stands { IfOk result (λ l. standing self.new ≡ after l (standing self.old)) }
        ensures writes { IfOk result (λ l. string_bytes out.new ≡ string_bytes out.old ++ line_text l (standing self.old)) }
        ensures carried { Carried known (standing self.old) (standing self.new) }
        ensures plans { (ms : List Codes) → known ≡ Known.Planning → (standing self.old).site.stage ≡ drafting ms → IfOk result (λ l. Plans l (standing self.old) (standing self.new) ms) }
    {
        self.lines = self.lines.saturating_add(1);
        let line = read::line(known, line);
        // Each kind ends on its own: what the check knows of one is lost where they meet.
        match line {
            Ok(None) => Ok(line),
            Ok(Some(command)) => {
                self.command(command, out)?;
                Ok(line)
            }
            Err(fault) => {
                self.error(fault, out)?;
                Ok(line)
            }
        }
    }

    fn command(&mut self, command: Command, out: &mut String) -> fmt::Result
        ensures stands { standing self.new ≡ obeyed command (standing self.old) }
        ensures writes { OnOk result (string_bytes out.new ≡ string_bytes out.old ++ told_line self.old.lines (answer_of (standing self.old).site command)) }
    {
        match self.exchange.obey(command) {
            Ok(answer) => {
                self.answered = self.answered.saturating_add(1);
                writeln!(out, "{answer}")?;
            }
            Err(Denial::OutOfTurn(turn)) => self.error(turn, out)?,
            Err(refused) => {
                self.refused = self.refused.saturating_add(1);
                writeln!(out, "{refused}")?;
            }
        }
        Ok(())
    }

    // Counts an error, and writes its line.
    fn error<E: fmt::Display + Drop>(&mut self, why: E, out: &mut String) -> fmt::Result
        ensures stands { standing self.new ≡ faulted (standing self.old) }
        ensures writes { IfSome (E.output why) (λ text. OnOk result (string_bytes out.new ≡ string_bytes out.old ++ error_line self.old.lines text)) }
    {
        self.errors = self.errors.saturating_add(1);
        let line = self.lines;
        writeln!(out, "error line {line}: {why}")?;
        Ok(())
    }

    // What the script came to so far.
    pub fn tally(&self) -> Tally
        ensures { result ≡ tally_of (standing self.now) }
    {
        let plan = self.exchange.plan();
        Tally {
            associations: plan.associations(),
            codes: plan.places(),
            answered: self.answered,
            refused: self.refused,
            errors: self.errors,
        }
    }
}
