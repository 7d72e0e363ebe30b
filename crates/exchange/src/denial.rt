// Why a command is not carried out.
ghost use Rattle.std.specs.Prelude.{◌≡◌, Some};
ghost use Rattle.exchange.specs.Texts.{denial_text, turn_text};
ghost use Rattle.exchange.specs.declared.denial.Denial.TheVariants.{OutOfTurn, Refused};

use signal::refusal::Refusal;
use std::fmt;

// A denied command alters nothing.
#[derive(Clone, Copy, PartialEq, Eq, Debug)]
pub enum Denial {
    // It comes out of turn.
    OutOfTurn(Turn),
    // It has its turn, and is refused.
    Refused(Refusal),
}

// Why a command has not its turn.
#[derive(Clone, Copy, PartialEq, Eq, Debug)]
pub enum Turn {
    // It needs an open node, and there is none yet.
    NotOpen,
    // It needs a draft, and the node is open.
    Open,
}

impl From<Turn> for Denial {
    ghost from_gives = { λ turn denial. denial ≡ OutOfTurn turn };

    fn from(turn: Turn) -> Denial {
        Denial::OutOfTurn(turn)
    }
}

impl From<Refusal> for Denial {
    ghost from_gives = { λ refusal denial. denial ≡ Refused refusal };

    fn from(refusal: Refusal) -> Denial {
        Denial::Refused(refusal)
    }
}

impl fmt::Display for Denial {
    ghost output = { λ denial. Some (denial_text denial) };

    fn fmt<W: fmt::Write>(&self, f: &mut fmt::Formatter<W>) -> fmt::Result {
        match *self {
            Denial::OutOfTurn(why) => write!(f, "{why}"),
            Denial::Refused(why) => write!(f, "refused {}", why.number()),
        }
    }
}

impl fmt::Display for Turn {
    ghost output = { λ turn. Some (turn_text turn) };

    fn fmt<W: fmt::Write>(&self, f: &mut fmt::Formatter<W>) -> fmt::Result {
        match *self {
            Turn::NotOpen => f.write_str("the node is not open yet"),
            Turn::Open => f.write_str("the node is open already"),
        }
    }
}
