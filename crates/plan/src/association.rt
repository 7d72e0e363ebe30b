// An association, and how a code is addressed.
ghost use Rattle.std.specs.Prelude.{◌≡◌};
ghost use Rattle.plan.specs.Members.{nobody};

use hunt::codes::Codes;
use hunt::side::Side;

// An association: its codes are places from the place `first` on.
#[derive(Clone, Copy)]
pub struct Association {
    pub first: u16,
    pub codes: Codes,
}

// No codes: what lies beyond the last association of a plan. By hand, since no side is the usual one.
impl Default for Association {
    ghost is_default = { λ a. (a.first ≡ 0) × (a.codes ≡ nobody) };

    fn default() -> Association {
        Association {
            first: 0,
            codes: Codes {
                size: 0,
                side: Side::Even,
            },
        }
    }
}

// A code by the number of its association and its number there.
#[derive(Clone, Copy)]
pub struct Address {
    pub association: u16,
    pub code: u16,
}
