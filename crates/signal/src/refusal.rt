// Why a call is refused.
ghost use Rattle.std.specs.Prelude.{◌≡◌};
ghost use Rattle.signal.specs.Refusals.{refusal_number};

// A refused call alters nothing. Where several cases fit, the one with the smallest number is answered.
#[derive(Clone, Copy, PartialEq, Eq, Debug)]
pub enum Refusal {
    // A list that the caller lends, for messages or for notes, has no room for 96 entries.
    Lists = 1,
    // The code table that the caller lends lacks a record for some place.
    Table = 2,
    // There is no association of that number.
    Association = 3,
    // There is no such code or place, or a range reaches beyond its association.
    Place = 4,
    // The digits, the cause, the route or the range cannot be what they are.
    Content = 5,
    // The time goes back, or is later than 4,000,000,000.
    Time = 6,
    // The last call number, 999,999,999, was given to an earlier IAM.
    CallNumbers = 7,
    // The association's last order still waits for its answer.
    Unanswered = 8,
    // There is no 9.
    // No association has that many codes: 1 to 256 are allowed.
    Size = 10,
    // A draft has no room for a 129th association or a 4,097th code.
    Full = 11,
}

impl Refusal {
    pub fn number(self) -> u8
        ensures { result ≡ refusal_number self }
    {
        self as u8
    }
}
