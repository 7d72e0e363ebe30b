// What an accepted call is answered.
ghost use Rattle.std.specs.Prelude.{◌≡◌};
ghost use Rattle.signal.specs.Verdicts.{verdict_value};

#[derive(Clone, Copy)]
pub enum Verdict {
    // The IAM was taken, as the call of that number.
    Taken(u32),
    // The IAM was turned away, with that cause.
    TurnedAway(u8),
    // It called for nothing, or an own block kept it off.
    Disregarded,
    // It was done.
    Done,
    // The clock served a timer of that place.
    ServedPlace(u16),
    // The clock served a timer of that association's order.
    ServedAssociation(u16),
    // The clock found no timer due.
    NothingDue,
}

impl Verdict {
    // The call number, cause, place or association that it names, if it names one.
    pub fn value(self) -> Option<u32>
        ensures { result ≡ verdict_value self }
    {
        match self {
            Verdict::Taken(call) => Some(call),
            Verdict::TurnedAway(cause) => Some(u32::from(cause)),
            Verdict::ServedPlace(place) => Some(u32::from(place)),
            Verdict::ServedAssociation(association) => Some(u32::from(association)),
            _ => None,
        }
    }
}

// The verdict, and how many entries the call wrote into each list.
// Counts alone, for the lists are memory that the caller lends.
#[derive(Clone, Copy)]
pub struct Reply {
    pub verdict: Verdict,
    pub messages: usize,
    pub notes: usize,
}
