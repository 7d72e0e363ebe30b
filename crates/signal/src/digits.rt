// The digits of a called number.
ghost use Rattle.std.specs.Prelude.{◌≡◌, ◌<◌, Some};
ghost use Rattle.signal.specs.Contents.{digits_of, no_digits, valid_digits};
ghost use Rattle.signal.specs.Words.{digit_char, digits_text};

use std::fmt;

// How many an IAM can carry.
pub const DIGITS: usize = 16;

// The first `count` of `values` are the digits. A count over 16 counts as 16.
// A count beside an array, since a record has no heap and anyone may write any count into the table.
#[derive(Clone, Copy, Default)]
pub struct Digits {
    pub count: u8,
    pub values: [u8; DIGITS],
}

impl Digits {
    // No digits.
    pub fn none() -> Digits
        ensures { result ≡ no_digits }
    {
        Digits::default()
    }

    // The digits, one after another.
    pub fn called(&self) -> &[u8]
        ensures { result.now ≡ digits_of self.now }
    {
        &self.values[..DIGITS.min(self.count as usize)]
    }

    // Whether these can be called: 1 to 16 digits, none of them over 15.
    pub fn is_valid(&self) -> bool
        ensures { result ≡ valid_digits self.now }
    {
        1 <= self.count
            && self.count as usize <= DIGITS
            && self.called().iter().all(|&digit| digit <= 15)
    }
}

// In hexadecimal, a character each; a dash where there are none.
impl fmt::Display for Digits {
    ghost output = { λ digits. Some (digits_text digits) };

    fn fmt<W: fmt::Write>(&self, f: &mut fmt::Formatter<W>) -> fmt::Result {
        if self.count == 0 {
            return f.write_str("-");
        }
        for &digit in self.called() {
            f.write_char(digit_char(digit))?;
        }
        Ok(())
    }
}

fn digit_char(digit: u8) -> char
    ensures value { result ≡ digit_char digit }
    ensures ascii { result < 128 }
{
    char::from_digit(u32::from(digit), 16).unwrap_or('?')
}
