// Causes, by their numbers in Q.850.
// They are bare numbers, for a neighbour may send any octet, it has to be shown as it came, and no
// rule tells one cause from another.
ghost use Rattle.std.specs.Prelude.{◌≡◌};
ghost use Rattle.signal.specs.Contents.{valid_cause};

// Whether a message can carry that cause.
pub fn is_valid(cause: u8) -> bool
    ensures { result ≡ valid_cause cause }
{
    (1..=127).contains(&cause)
}
