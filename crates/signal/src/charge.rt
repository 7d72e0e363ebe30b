// What is charged for a call: its talk in seconds, and the units that these make.
ghost use Rattle.std.specs.Prelude.{◌≡◌};
ghost use Rattle.signal.specs.Charges.{talk_seconds, units, UnitsLaws};

use crate::code::Code;
use crate::state::State;

// The seconds since the answer; none where the call is not answered, or the answer lies ahead.
pub fn talk_seconds(code: &Code, time: u32) -> u32
    ensures { result ≡ talk_seconds code.now time }
{
    match code.state {
        State::InTalk => time.saturating_sub(code.answered),
        _ => 0,
    }
}

// Units of six seconds: the nearest number of them, and half a unit goes up.
pub fn units(talk: u32) -> u32
    ensures value { result ≡ units talk }
    ensures laws { UnitsLaws }
{
    ((u64::from(talk) + 3) / 6) as u32
}
