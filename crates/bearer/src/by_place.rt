// An entry for each place.
ghost use Rattle.std.specs.Prelude.{◌≡◌, replicate};
ghost use Rattle.bearer.specs.ByPlace.{index_at, at_place, everywhere, entry_of, with_entry};

// As many places as a node can have. Crate `plan` has the same limit; the two stand on nothing in
// common that could hold it.
pub const PLACES: usize = 4096;

// The entry of place p stands at index p - 1.
#[derive(Drop)]
pub(crate) struct ByPlace<T> {
    entries: [T; PLACES],
}

impl<T: Copy> ByPlace<T> {
    // Each place has that entry.
    pub(crate) fn all(entry: T) -> ByPlace<T>
        ensures same { result.entries ≡ replicate 4096 entry }
        ensures anywhere { at_place result.entries entry ≡ everywhere entry }
    {
        ByPlace {
            entries: [entry; PLACES],
        }
    }

    pub(crate) fn get(&self, place: u16) -> Option<T>
        ensures { result ≡ entry_of self.now.entries place }
    {
        Some(self.entries[index_at(place)?])
    }

    pub(crate) fn set(&mut self, place: u16, entry: T)
        ensures { self.new.entries ≡ with_entry self.old.entries place entry }
    {
        if let Some(index) = index_at(place) {
            self.entries[index] = entry;
        }
    }
}

// Outside 1 to 4096 there is no place.
fn index_at(place: u16) -> Option<usize>
    ensures { result ≡ index_at place }
{
    let index = place.checked_sub(1)? as usize;
    (index < PLACES).then_some(index)
}
