// The per-call host: a bearer is dropped when it is given back.
ghost use Rattle.std.specs.Prelude.{◌≡◌, ◌+◌, ◌-◌, ◌≤◌, ◌&&◌, nat_lt};
ghost use Rattle.bearer.specs.Kit.{is_none, is_place};
ghost use Rattle.bearer.specs.PerCall.{Meaning, per_call, phase_of, used, fresh};
ghost use Rattle.std.proofs.Common.{rules};

use crate::by_place::{ByPlace, PLACES};
use crate::host::BearerHost;
use crate::phase::Phase;

#[derive(Drop)]
pub struct PerCall {
    phases: ByPlace<Phase>,
    spare: usize,
    size: usize,
    ghost counted: { spare + used phases.entries ≡ size },
    ghost small: { size ≤ 4096 },
}

impl PerCall {
    ghost use Rattle.bearer.specs.States.{meaning};

    // A host of that many bearers; a size over 4096 counts as 4096.
    pub fn new(size: usize) -> PerCall
        ensures { meaning result ≡ fresh size }
    {
        let size = size.min(PLACES);
        PerCall {
            phases: ByPlace::all(Phase::Nothing),
            spare: size,
            size,
        }
    }

    // Whether the place has no bearer and can have one.
    fn is_free(&self, place: u16) -> bool
        ensures { result ≡ is_place place && is_none (phase_of (meaning self.now) place) }
    {
        self.phases.get(place) == Some(Phase::Nothing)
    }
}

#[tactic(auto, using(crate::proofs::Places::used_with))]
impl BearerHost for PerCall {
    ghost use Rattle.bearer.specs.States.{meaning};

    ghost State = { Meaning };

    ghost state = { meaning };

    ghost kit = { per_call };

    ghost lawful = { Prim.search rules };

    fn clear(&mut self) {
        self.phases = ByPlace::all(Phase::Nothing);
        self.spare = self.size;
    }

    fn seize(&mut self, place: u16) -> bool {
        if self.spare == 0 || !self.is_free(place) {
            return false;
        }
        self.phases.set(place, Phase::Forming);
        self.spare -= 1;
        true
    }

    fn settle(&mut self, place: u16) {
        if self.phase(place) == Phase::Forming {
            self.phases.set(place, Phase::Up);
        }
    }

    fn give(&mut self, place: u16) {
        if self.phase(place) != Phase::Nothing {
            self.phases.set(place, Phase::Nothing);
            self.spare += 1;
        }
    }

    fn phase(&self, place: u16) -> Phase {
        self.phases.get(place).unwrap_or(Phase::Nothing)
    }

    // Spare is the size less the places that have a bearer.
    fn has_spare(&self) -> bool
        ensures value { result ≡ nat_lt 0 self.now.spare }
        ensures counted { self.now.spare ≡ self.now.size - used self.now.phases.entries }
    {
        self.spare > 0
    }
}
