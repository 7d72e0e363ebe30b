// Words that are names. By functions and not `FromStr`, since numbers and due times, whose types are
// the library's, are read the same way.
use crate::numbers::held;
use choice::host::HostKind;
use choice::order::Order;
use hunt::side::Side;
use signal::state::State;

pub(crate) fn side(word: &str) -> Option<Side> {
    match word {
        "even" => Some(Side::Even),
        "odd" => Some(Side::Odd),
        _ => None,
    }
}

pub(crate) fn order(word: &str) -> Option<Order> {
    match word {
        "straight" => Some(Order::Straight),
        "own-half-first" => Some(Order::OwnHalfFirst),
        _ => None,
    }
}

pub(crate) fn host(word: &str) -> Option<HostKind> {
    match word {
        "per-call" => Some(HostKind::PerCall),
        "re-use" => Some(HostKind::ReUse),
        _ => None,
    }
}

pub(crate) fn flag(word: &str) -> Option<bool> {
    match word {
        "yes" => Some(true),
        "no" => Some(false),
        _ => None,
    }
}

pub(crate) fn state(word: &str) -> Option<State> {
    match word {
        "Idle" => Some(State::Idle),
        "InSet" => Some(State::InSet),
        "InRun" => Some(State::InRun),
        "InTalk" => Some(State::InTalk),
        "OutWait" => Some(State::OutWait),
        "OutRing" => Some(State::OutRing),
        "OutHeld" => Some(State::OutHeld),
        "OutTalk" => Some(State::OutTalk),
        "Clearing" => Some(State::Clearing),
        "Resetting" => Some(State::Resetting),
        "GroupReset" => Some(State::GroupReset),
        _ => unknown_state(word),
    }
}

// A number from 11 on, which none of the eleven states has.
fn unknown_state(word: &str) -> Option<State> {
    held(word)
        .filter(|number| *number >= 11)
        .map(State::Unknown)
}
