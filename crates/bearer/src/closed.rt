// Hosts that have no bearer to give.
ghost use Rattle.std.specs.Prelude.{◌≡◌, not, nat_lt};
ghost use Rattle.bearer.specs.Closed.{RefusingHasSizeZero};

use crate::host::BearerHost;

// Clears the host and tells whether it has no bearer at all, a size of 0.
// A host that refuses every seizure is such a host: that follows from the laws alone.
pub fn clear_is_closed<H: BearerHost>(host: &mut H) -> bool
    ensures value { result ≡ not (nat_lt 0 (H.kit.size (H.state host.old))) }
    ensures after { H.state host.new ≡ H.kit.cleared (H.state host.old) }
    ensures corollary { RefusingHasSizeZero H.kit }
{
    !clear_has_spare(host)
}

// Once cleared, a host has a bearer spare unless its size is 0.
fn clear_has_spare<H: BearerHost>(host: &mut H) -> bool
    ensures value { result ≡ nat_lt 0 (H.kit.size (H.state host.old)) }
    ensures after { H.state host.new ≡ H.kit.cleared (H.state host.old) }
    ensures corollary { RefusingHasSizeZero H.kit }
{
    host.clear();
    host.has_spare()
}
