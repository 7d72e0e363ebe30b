// Why a line of a script is in error.
ghost use Rattle.std.specs.Prelude.{◌≡◌, Some};
ghost use Rattle.reading.specs.Faults.{fault_text, part_text, wanted_text};

use std::error::Error;
use std::fmt;

#[derive(Clone, Copy, Debug)]
pub enum Fault<'a> {
    // The line is not UTF-8.
    NotText,
    NoCommand(&'a str),
    // A word that the command needs is not there.
    Missing(Part),
    // A word cannot be read as what it should be.
    Unreadable(Part, &'a str),
    Surplus(&'a str),
}

// What a word of a command says.
#[derive(Clone, Copy, Debug)]
pub enum Part {
    Size,
    Side,
    Order,
    Association,
    Host,
    Bearers,
    Place,
    State,
    Partner,
    Own,
    Peer,
    Call,
    Route,
    Digits,
    AnswerTime,
    Cause,
    Short,
    Long,
    Messages,
    Notes,
    Records,
}

impl fmt::Display for Fault<'_> {
    ghost output = { λ x. Some (fault_text x) };

    fn fmt<W: fmt::Write>(&self, f: &mut fmt::Formatter<W>) -> fmt::Result {
        match *self {
            Fault::NotText => write!(f, "the line is not text in UTF-8"),
            Fault::NoCommand(word) => write!(f, "there is no command {word}"),
            Fault::Missing(part) => write!(f, "the {part} is missing"),
            Fault::Unreadable(part, word) => {
                let wanted = part.wanted();
                write!(f, "the {part} is not {wanted}: {word}")
            }
            Fault::Surplus(word) => write!(f, "one word too many: {word}"),
        }
    }
}

impl Error for Fault<'_> {}

impl fmt::Display for Part {
    ghost output = { λ x. Some (part_text x) };

    fn fmt<W: fmt::Write>(&self, f: &mut fmt::Formatter<W>) -> fmt::Result {
        f.write_str(self.name())
    }
}

impl Part {
    fn name(self) -> &'static str
        ensures { result.now ≡ part_text self }
    {
        match self {
            Part::Size => "size",
            Part::Side => "side",
            Part::Order => "order",
            Part::Association => "association",
            Part::Host => "host",
            Part::Bearers => "number of bearers",
            Part::Place => "place",
            Part::State => "state",
            Part::Partner => "partner",
            Part::Own => "own block",
            Part::Peer => "peer block",
            Part::Call => "call number",
            Part::Route => "route",
            Part::Digits => "string of digits",
            Part::AnswerTime => "answer time",
            Part::Cause => "cause",
            Part::Short => "short due time",
            Part::Long => "long due time",
            Part::Messages => "number of messages",
            Part::Notes => "number of notes",
            Part::Records => "number of records",
        }
    }

    // What the word should be.
    fn wanted(self) -> &'static str
        ensures { result.now ≡ wanted_text self }
    {
        match self {
            Part::Side => "even or odd",
            Part::Order => "straight or own-half-first",
            Part::Host => "per-call or re-use",
            Part::State => "the name of a state or a number from 11 to 255",
            Part::Own | Part::Peer => "yes or no",
            Part::Partner | Part::Route => "a number up to 65535",
            Part::Call | Part::AnswerTime => "a number up to 4294967295",
            Part::Digits => "- or up to 16 of 0-9 a-f",
            Part::Cause => "a number up to 255",
            Part::Short | Part::Long => "off or a number up to 4294967295",
            Part::Size
            | Part::Association
            | Part::Bearers
            | Part::Place
            | Part::Messages
            | Part::Notes
            | Part::Records => "a decimal number",
        }
    }
}
