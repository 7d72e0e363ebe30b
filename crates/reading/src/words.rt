// The words of a line, one after another.
ghost use Rattle.std.specs.Prelude.{◌≡◌, Some, IfErr};
ghost use Rattle.reading.specs.Lines.{part_of};

use crate::fault::{Fault, Part};
use std::str::SplitWhitespace;

#[derive(Drop)]
pub(crate) struct Words<'a> {
    words: SplitWhitespace<'a>,
}

impl<'a> Words<'a> {
    pub(crate) fn new(text: &'a str) -> Words<'a> {
        Words {
            words: text.split_whitespace(),
        }
    }

    // The next word, whatever it says.
    pub(crate) fn next(&mut self) -> Option<&'a str> {
        self.words.next()
    }

    // The next word, read as what it should be.
    pub(crate) fn read<T, F>(&mut self, part: Part, read: F) -> Result<T, Fault<'a>>
    where
        F: FnOnce(&'a str) -> Option<T>,
        requires { F.IsAlwaysCallable read }
        ensures { IfErr result (λ fault. part_of fault ≡ Some part) }
    {
        let word = self.next().ok_or(Fault::Missing(part))?;
        read(word).ok_or(Fault::Unreadable(part, word))
    }
}
