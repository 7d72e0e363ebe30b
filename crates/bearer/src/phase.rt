// How far the bearer of a place has come.
ghost use Rattle.std.specs.Prelude.{Some};
ghost use Rattle.bearer.specs.Words.{phase_text};

use std::fmt;

#[derive(Clone, Copy, PartialEq, Eq, Debug)]
pub enum Phase {
    // No bearer. Scripts and documents call this phase "none".
    Nothing,
    // Seized, and not yet reported up.
    Forming,
    // Reported up.
    Up,
}

impl fmt::Display for Phase {
    ghost output = { λ x. Some (phase_text x) };

    fn fmt<W: fmt::Write>(&self, f: &mut fmt::Formatter<W>) -> fmt::Result {
        match self {
            Phase::Nothing => f.write_str("none"),
            Phase::Forming => f.write_str("forming"),
            Phase::Up => f.write_str("up"),
        }
    }
}
