// A command read from a line.
ghost use Rattle.std.specs.Prelude.{◌≡◌, true, None, Ok, IfOk, IfErr};
ghost use Rattle.reading.specs.Lines.{is_comment, knows, part_of, knows_fault, knows_line};

use crate::digits::digits;
use crate::fault::{Fault, Part};
use crate::known::Known;
use crate::line::Line;
use crate::names::{flag, host, order, side, state};
use crate::numbers::{due, held, place};
use crate::words::Words;
use exchange::command::Command;
use signal::code::Code;

// The command of a line; none of a comment, or where there is no word.
pub fn line(known: Known, line: &[u8]) -> Line<'_>
    ensures comment { is_comment line.now ≡ true → result ≡ Ok None }
    ensures known { knows_line known result ≡ true }
{
    if let [b'#', ..] = line {
        return Ok(None);
    }
    let Ok(text) = std::str::from_utf8(line) else {
        return Err(Fault::NotText);
    };
    let mut words = Words::new(text);
    let Some(name) = words.next() else {
        return Ok(None);
    };
    let command = command(known, name, &mut words)?;
    match words.next() {
        Some(word) => Err(Fault::Surplus(word)),
        None => Ok(Some(command)),
    }
}

fn command<'a>(known: Known, name: &'a str, words: &mut Words<'a>) -> Result<Command, Fault<'a>>
    ensures known { IfOk result (λ c. knows known c ≡ true) }
    ensures faults { IfErr result (λ fault. knows_fault known (part_of fault) ≡ true) }
{
    match name {
        "association" => Ok(Command::Association {
            size: words.read(Part::Size, held)?,
            side: words.read(Part::Side, side)?,
        }),
        "hunt" => Ok(Command::Hunt {
            order: words.read(Part::Order, order)?,
            association: words.read(Part::Association, place)?,
        }),
        _ if known == Known::Planning => Err(Fault::NoCommand(name)),
        "open" => Ok(Command::Open {
            order: words.read(Part::Order, order)?,
            host: words.read(Part::Host, host)?,
            bearers: words.read(Part::Bearers, held)?,
        }),
        "show" => Ok(Command::Show(words.read(Part::Place, place)?)),
        "phase" => Ok(Command::Phase(words.read(Part::Place, place)?)),
        "kept" => Ok(Command::Kept(words.read(Part::Place, place)?)),
        "poke" => Ok(Command::Poke {
            place: words.read(Part::Place, place)?,
            code: record(words)?,
        }),
        "lists" => Ok(Command::Lists {
            messages: words.read(Part::Messages, held)?,
            notes: words.read(Part::Notes, held)?,
        }),
        "table" => Ok(Command::Table(words.read(Part::Records, held)?)),
        _ => Err(Fault::NoCommand(name)),
    }
}

// The fields of a record, in the order in which `show` prints them.
fn record<'a>(words: &mut Words<'a>) -> Result<Code, Fault<'a>> {
    Ok(Code {
        state: words.read(Part::State, state)?,
        partner: words.read(Part::Partner, held)?,
        own: words.read(Part::Own, flag)?,
        peer: words.read(Part::Peer, flag)?,
        call: words.read(Part::Call, held)?,
        route: words.read(Part::Route, held)?,
        digits: words.read(Part::Digits, digits)?,
        answered: words.read(Part::AnswerTime, held)?,
        cause: words.read(Part::Cause, held)?,
        short: words.read(Part::Short, due)?,
        long: words.read(Part::Long, due)?,
    })
}
