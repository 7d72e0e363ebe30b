// What a node asks of a bearer host.
ghost use Rattle.std.specs.Prelude.{◌≡◌, nat_lt};
ghost use Rattle.bearer.specs.Kit.{HostKit};
ghost use Rattle.bearer.specs.Laws.{HostLaws};
ghost use Rattle.bearer.specs.Phases.{Cleared, Seized, Settled, Given};

use crate::phase::Phase;

// A host is a state machine. `kit` says what each call does to its state, as far as a node can tell,
// and `lawful` that this is what a bearer host means. Each call says what the host's state is
// afterwards, and beside it the phase of every place.
pub trait BearerHost {
    ghost State: { Type 0 };

    ghost state: { Self → State };

    ghost kit: { HostKit State };

    // Every bearer is given back.
    fn clear(&mut self)
        ensures after { state self.new ≡ kit.cleared (state self.old) }
        ensures phases { Cleared kit (state self.new) };

    // Seizes a bearer for the place, or answers false.
    fn seize(&mut self, place: u16) -> bool
        ensures value { result ≡ kit.seizes (state self.old) place }
        ensures after { state self.new ≡ kit.seized (state self.old) place }
        ensures phases { Seized kit (state self.old) (state self.new) place result };

    // The place's bearer, if it is forming, is up.
    fn settle(&mut self, place: u16)
        ensures after { state self.new ≡ kit.settled (state self.old) place }
        ensures phases { Settled kit (state self.old) (state self.new) place };

    // The place's bearer, if it has one, is given back.
    fn give(&mut self, place: u16)
        ensures after { state self.new ≡ kit.given (state self.old) place }
        ensures phases { Given kit (state self.old) (state self.new) place };

    fn phase(&self, place: u16) -> Phase
        ensures { result ≡ kit.phase (state self.now) place };

    // Whether a bearer is left to seize.
    fn has_spare(&self) -> bool
        ensures { result ≡ nat_lt 0 (kit.spare (state self.now)) };

    ghost lawful: { HostLaws kit };
}
