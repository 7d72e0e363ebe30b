// The bearer hosts that can be chosen, as one bearer host.
ghost use Rattle.std.specs.Prelude.{◌≡◌};
ghost use Rattle.choice.specs.Hosts.{Bearing, state_of, bearing, chosen, fresh_host, keeps};
ghost use Rattle.choice.specs.Lawfuls.{chosen_lawful};

use bearer::host::BearerHost;
use bearer::percall::PerCall;
use bearer::phase::Phase;
use bearer::reuse::ReUse;

#[derive(Clone, Copy)]
pub enum HostKind {
    PerCall,
    ReUse,
}

// One of two hosts, and a host itself, whichever two they are. Unless it is said otherwise, they are
// those of crate `bearer`. An enum, for a host that is made here is handed out, which no `dyn` may be.
#[derive(Drop)]
pub enum Host<P = PerCall, R = ReUse> {
    PerCall(P),
    ReUse(R),
}

impl Host {
    // A host of that kind and that many bearers; a size over 4096 counts as 4096.
    pub fn new(kind: HostKind, size: usize) -> Host
        ensures { bearing result ≡ fresh_host kind size }
    {
        match kind {
            HostKind::PerCall => Host::PerCall(PerCall::new(size)),
            HostKind::ReUse => Host::ReUse(ReUse::new(size)),
        }
    }

    // Whether a bearer is kept for the place; a per-call host keeps none.
    pub fn keeps(&self, place: u16) -> bool
        ensures { result ≡ keeps (bearing self.now) place }
    {
        match self {
            Host::PerCall(_) => false,
            Host::ReUse(host) => host.keeps(place),
        }
    }
}

impl<P: BearerHost, R: BearerHost> BearerHost for Host<P, R> {
    ghost State = { Bearing P.BearerHost.State R.BearerHost.State };

    ghost state = { state_of P.BearerHost.state R.BearerHost.state };

    ghost kit = { chosen P.BearerHost.kit R.BearerHost.kit };

    ghost lawful = { chosen_lawful P.BearerHost.lawful R.BearerHost.lawful };

    fn clear(&mut self) {
        match self {
            Host::PerCall(host) => host.clear(),
            Host::ReUse(host) => host.clear(),
        }
    }

    fn seize(&mut self, place: u16) -> bool {
        match self {
            Host::PerCall(host) => host.seize(place),
            Host::ReUse(host) => host.seize(place),
        }
    }

    fn settle(&mut self, place: u16) {
        match self {
            Host::PerCall(host) => host.settle(place),
            Host::ReUse(host) => host.settle(place),
        }
    }

    fn give(&mut self, place: u16) {
        match self {
            Host::PerCall(host) => host.give(place),
            Host::ReUse(host) => host.give(place),
        }
    }

    fn phase(&self, place: u16) -> Phase {
        match self {
            Host::PerCall(host) => host.phase(place),
            Host::ReUse(host) => host.phase(place),
        }
    }

    fn has_spare(&self) -> bool {
        match self {
            Host::PerCall(host) => host.has_spare(),
            Host::ReUse(host) => host.has_spare(),
        }
    }
}
