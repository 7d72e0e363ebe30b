// The re-use host: a bearer which is given back while it is up is kept for its place.
ghost use Rattle.std.specs.Prelude.{◌≡◌, ◌-◌, nat_lt};
ghost use Rattle.bearer.specs.PerCall.{used};
ghost use Rattle.bearer.specs.ReUse.{Keeping, re_use, fresh_keeping};
ghost use Rattle.std.proofs.Common.{rules};

use crate::by_place::ByPlace;
use crate::host::BearerHost;
use crate::percall::PerCall;
use crate::phase::Phase;

// A kept bearer lasts until clear or the next successful seizure of its place.
#[derive(Drop)]
pub struct ReUse {
    bearers: PerCall,
    // Apart from the phases, which are the per-call host's own.
    kept: ByPlace<bool>,
}

impl ReUse {
    ghost use Rattle.bearer.specs.States.{keeping};

    // A host of that many bearers, none of them kept; a size over 4096 counts as 4096.
    pub fn new(size: usize) -> ReUse
        ensures { keeping result ≡ fresh_keeping size }
    {
        ReUse {
            bearers: PerCall::new(size),
            kept: ByPlace::all(false),
        }
    }

    // Whether a bearer is kept for the place.
    pub fn keeps(&self, place: u16) -> bool
        ensures { result ≡ (keeping self.now).kept place }
    {
        self.kept.get(place).unwrap_or(false)
    }
}

impl BearerHost for ReUse {
    ghost use Rattle.bearer.specs.States.{keeping};

    ghost State = { Keeping };

    ghost state = { keeping };

    ghost kit = { re_use };

    ghost lawful = { Prim.search rules };

    fn clear(&mut self) {
        self.bearers.clear();
        self.kept = ByPlace::all(false);
    }

    fn seize(&mut self, place: u16) -> bool {
        let seized = self.bearers.seize(place);
        if seized {
            self.kept.set(place, false);
        }
        seized
    }

    fn settle(&mut self, place: u16) {
        self.bearers.settle(place);
    }

    fn give(&mut self, place: u16) {
        if self.bearers.phase(place) == Phase::Up {
            self.kept.set(place, true);
        }
        self.bearers.give(place);
    }

    fn phase(&self, place: u16) -> Phase {
        self.bearers.phase(place)
    }

    // Spare is the size less the places that have a bearer; kept bearers do not count.
    fn has_spare(&self) -> bool
        ensures value { result ≡ nat_lt 0 self.now.bearers.spare }
        ensures counted { self.now.bearers.spare ≡ self.now.bearers.size - used self.now.bearers.phases.entries }
    {
        self.bearers.has_spare()
    }
}
