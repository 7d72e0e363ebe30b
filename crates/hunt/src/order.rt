// What a node asks of a hunt order.
ghost use Rattle.std.specs.Prelude.{◌≡◌, ℕ};
ghost use Rattle.hunt.specs.Orders.{Lawful, code_at};
ghost use Rattle.hunt.specs.declared.side.Side.{Side};

use crate::codes::Codes;

pub trait HuntOrder {
    // The code at each position, for a number of codes and a side.
    ghost order: { Self → ℕ → Side → ℕ → ℕ };

    // The code at a position of the hunt over the codes; none at their number or beyond.
    fn code_at(&self, codes: Codes, position: u16) -> Option<u16>
        ensures { result ≡ code_at (order self.now) codes.size codes.side position };

    ghost lawful: { (o : Self) → Lawful (order o) };
}
