// The digits of a called number, as a script writes them.
use crate::numbers::held;
use signal::digits::{DIGITS, Digits};

// Digits 0-9 a-f, or `-` for none; behind them may stand `/COUNT`, which sets their count apart.
pub(crate) fn digits(word: &str) -> Option<Digits> {
    match word.split_once('/') {
        Some((digits, count)) => Some(Digits {
            count: held(count)?,
            ..hexadecimal(digits.as_bytes())?
        }),
        None => hexadecimal(word.as_bytes()),
    }
}

fn hexadecimal(word: &[u8]) -> Option<Digits> {
    match word {
        [] => None,
        [b'-'] => Some(Digits::none()),
        _ => some_digits(word),
    }
}

fn some_digits(word: &[u8]) -> Option<Digits> {
    if word.len() > DIGITS {
        return None;
    }
    let mut values = [0; DIGITS];
    for (value, letter) in values.iter_mut().zip(word) {
        *value = digit(*letter)?;
    }
    Some(Digits {
        count: word.len() as u8,
        values,
    })
}

// The library's `to_digit` takes capitals too.
fn digit(letter: u8) -> Option<u8> {
    match letter {
        b'0'..=b'9' => Some(letter - b'0'),
        b'a'..=b'f' => Some(letter - b'a' + 10),
        _ => None,
    }
}
