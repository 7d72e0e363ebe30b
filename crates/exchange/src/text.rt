// What a command is answered, as text.
ghost use Rattle.std.specs.Fmt.{WritesOnOk};
ghost use Rattle.std.specs.Prelude.{Some};
ghost use Rattle.choice.specs.Orders.{named};
ghost use Rattle.exchange.specs.Texts.{answer_text, codes_text};

use crate::answer::Answer;
use choice::order::Order;
use hunt::codes::Codes;
use hunt::order::HuntOrder;
use signal::flag::Flag;
use std::fmt;

impl fmt::Display for Answer {
    ghost output = { λ answer. Some (answer_text answer) };

    fn fmt<W: fmt::Write>(&self, f: &mut fmt::Formatter<W>) -> fmt::Result {
        match *self {
            Answer::Drafted {
                association,
                first,
                last,
            } => write!(f, "association {association} places {first}-{last}"),
            Answer::Hunt {
                association,
                order,
                codes,
            } => {
                write!(f, "hunt {association}:")?;
                write_codes(f, order, codes)
            }
            Answer::Opened {
                associations,
                places,
            } => write!(f, "open {associations} {places}"),
            Answer::Shown {
                place,
                address,
                code,
                phase,
            } => write!(
                f,
                "place {place} {}/{} {code} phase {phase}",
                address.association, address.code
            ),
            Answer::Phase(phase) => write!(f, "phase {phase}"),
            Answer::Kept(kept) => write!(f, "kept {}", Flag(kept)),
            Answer::Poked => f.write_str("poked"),
            Answer::Done => f.write_str("done"),
        }
    }
}

// The codes in the order of the hunt, each behind a space.
fn write_codes<W: fmt::Write>(f: &mut fmt::Formatter<W>, order: Order, codes: Codes) -> fmt::Result
    ensures { WritesOnOk W.write_str_gives f.old result (codes_text (named order codes.size codes.side) 0 codes.size) f.new }
{
    for position in 0..codes.size {
        if let Some(code) = order.code_at(codes, position) {
            write!(f, " {code}")?;
        }
    }
    Ok(())
}
