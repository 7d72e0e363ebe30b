// Decimal numbers.
ghost use Rattle.std.specs.Prelude.{◌≡◌, min};
ghost use Rattle.reading.specs.Numbers.{number_of};

// The number that decimal digits stand for; one beyond 64 bits counts as the largest.
// The library's `parse` takes a sign, and fails beyond 64 bits.
pub(crate) fn decimal(digits: &[u8]) -> Option<u64>
    ensures { result ≡ number_of digits.now }
{
    if digits.is_empty() {
        return None;
    }
    let mut value = 0u64;
    for &digit in digits {
        if !digit.is_ascii_digit() {
            return None;
        }
        value = value
            .saturating_mul(10)
            .saturating_add((digit - b'0') as u64);
    }
    Some(value)
}

// A number that its field can hold.
pub(crate) fn held<T: TryFrom<u64, Error: Drop>>(word: &str) -> Option<T> {
    T::try_from(decimal(word.as_bytes())?).ok()
}

// A number as far as 16 bits hold it; a larger one counts as the largest.
pub(crate) fn narrowed(value: u64) -> u16
    ensures { result ≡ min value 65535 }
{
    u16::try_from(value).unwrap_or(u16::MAX)
}

// The number of a place or of an association.
pub(crate) fn place(word: &str) -> Option<u16> {
    decimal(word.as_bytes()).map(narrowed)
}

// When a timer runs out, if it is not off.
pub(crate) fn due(word: &str) -> Option<Option<u32>> {
    match word {
        "off" => Some(None),
        _ => held(word).map(Some),
    }
}
