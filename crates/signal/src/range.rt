// Ranges of codes.
ghost use Rattle.std.specs.Prelude.{◌≡◌};
ghost use Rattle.signal.specs.Contents.{valid_range};

// `span` codes from a first one on, which the message or the order names, and a status bit for
// each of them; the lowest bit is that of the first code.
#[derive(Clone, Copy)]
pub struct Range {
    pub span: u32,
    pub status: u64,
}

impl Range {
    // Whether there can be such a range: a span of 1 to 32, and no status bit beyond it.
    pub fn is_valid(self) -> bool
        ensures { result ≡ valid_range self }
    {
        (1..=32).contains(&self.span) && self.status < 1 << self.span
    }
}
