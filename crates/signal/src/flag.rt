// Flags: yes or no.
ghost use Rattle.std.specs.Prelude.{Some};
ghost use Rattle.signal.specs.Words.{flag_text};

use std::fmt;

// A struct of its own, since a `bool` is written as true or false.
#[derive(Clone, Copy)]
pub struct Flag(pub bool);

impl fmt::Display for Flag {
    ghost output = { λ flag. Some (flag_text flag.0) };

    fn fmt<W: fmt::Write>(&self, f: &mut fmt::Formatter<W>) -> fmt::Result {
        f.write_str(if self.0 { "yes" } else { "no" })
    }
}
