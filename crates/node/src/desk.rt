// What the caller lends.
ghost use Rattle.std.specs.Prelude.{◌≡◌, ◌<◌, [], ◌∷◌, length};
ghost use Rattle.node.specs.Desks.{sheet};
ghost use Rattle.node.specs.World.{onto};

use signal::code::Code;
use signal::message::Message;
use signal::note::Note;

// The desk is what a call works on beside the node: the code table and the two lists that the
// caller lends. It stays apart from the node: a `&self` beside it shows that the node stays as it is.
#[derive(Drop)]
pub(crate) struct Desk<'a> {
    pub(crate) table: &'a mut [Code],
    pub(crate) messages: LentList<'a, Message>,
    pub(crate) notes: LentList<'a, Note>,
}

// A list, and how many of its entries are written. A slice and a count, for the memory is the caller's.
#[derive(Drop)]
pub(crate) struct LentList<'a, T> {
    entries: &'a mut [T],
    written: usize,
}

impl<'a, T: Copy> LentList<'a, T> {
    // Writes one entry more.
    pub(crate) fn push(&mut self, entry: T)
        requires { self.old.written < length self.old.entries.now }
        ensures pushed { sheet self.new ≡ onto (sheet self.old) (entry ∷ []) }
        ensures memory { self.new.entries.ghost_name ≡ self.old.entries.ghost_name }
    {
        self.entries[self.written] = entry;
        self.written += 1;
    }
}
