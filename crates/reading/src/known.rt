// Which commands a script knows.

#[derive(Clone, Copy, PartialEq, Eq, Debug)]
pub enum Known {
    // Those of a plan alone: `association` and `hunt`.
    Planning,
    All,
}
