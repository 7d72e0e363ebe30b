// The first open code of a hunt.
ghost use Rattle.std.specs.Prelude.{◌≡◌, ◌<◌, None};
ghost use Rattle.hunt.specs.First.{hunted, marked, Found, FoundSuch, NonePasses};

use crate::codes::Codes;
use crate::order::HuntOrder;

// The code that a hunt finds first of those that are open, if any. Not public: whoever hands over a
// closure has to show that it may be called, and a public call asks for nothing.
pub(crate) fn first_such<O: HuntOrder, F: Fn(u16) -> bool>(
    order: &O,
    codes: Codes,
    is_open: F,
) -> Option<u16>
    requires { F.IsAlwaysCallable is_open }
    ensures { FoundSuch (O.HuntOrder.order order.now codes.size codes.side) (F.post is_open) codes.size result }
{
    for position in 0..codes.size {
        let code = order.code_at(codes, position)?;
        if is_open(code) {
            return Some(code);
        }
    }
    None
}

// The open code that a hunt over the codes finds first, if any; `marks` tells which are open,
// and a code beyond its end is not open.
pub fn first_open<O: HuntOrder>(order: &O, codes: Codes, marks: &[bool]) -> Option<u16>
    ensures value { result ≡ hunted (O.HuntOrder.order order.now codes.size codes.side) (marked marks.now) codes.size }
    ensures found { Found (O.HuntOrder.order order.now codes.size codes.side) (marked marks.now) codes.size result }
    ensures exactly { (result ≡ None → NonePasses (marked marks.now) codes.size) × (NonePasses (marked marks.now) codes.size → result ≡ None) }
{
    first_such(order, codes, |code| is_marked(marks, code))
}

fn is_marked(marks: &[bool], code: u16) -> bool
    ensures { result ≡ marked marks.now code }
{
    marks.get(usize::from(code)).copied().unwrap_or(false)
}
