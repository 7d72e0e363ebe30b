// When a timer runs out: a time, or off.
ghost use Rattle.std.specs.Prelude.{Some};
ghost use Rattle.signal.specs.Words.{due_text};

use std::fmt;

// A struct of its own, since an `Option` can get no `Display` here.
#[derive(Clone, Copy)]
pub struct Due(pub Option<u32>);

impl fmt::Display for Due {
    ghost output = { λ due. Some (due_text due.0) };

    fn fmt<W: fmt::Write>(&self, f: &mut fmt::Formatter<W>) -> fmt::Result {
        match self.0 {
            Some(time) => write!(f, "{time}"),
            None => f.write_str("off"),
        }
    }
}
