// What a catalogue is.
ghost use Rattle.std.specs.Prelude.{◌≡◌, ◌≤◌, List, length};
ghost use Rattle.std.specs.List.{slice_get};
ghost use Rattle.ie_catalogue.specs.declared.entry.Entry.{Entry};

use crate::entry::Entry;

// Its meaning is a list of at most 64 entries; a question changes nothing.
pub trait Catalogue {
    ghost entries: { Self → List Entry };

    ghost few: { (c : Self) → length (entries c) ≤ 64 };

    fn count(&self) -> usize
        ensures { result ≡ length (entries self.now) };

    // The entry at a position, or none from the count on.
    fn entry(&self, position: usize) -> Option<Entry>
        ensures { result ≡ slice_get (entries self.now) position };
}

// A reference to a catalogue is a catalogue.
impl<C: Catalogue> Catalogue for &C {
    ghost entries = { λ c. C.Catalogue.entries c.now };

    ghost few = { λ c. C.Catalogue.few c.now };

    fn count(&self) -> usize {
        (*self).count()
    }

    fn entry(&self, position: usize) -> Option<Entry> {
        (*self).entry(position)
    }
}
