// An entry of a catalogue: a row within its bounds, or the absent entry.
ghost use Rattle.std.specs.Prelude.{◌≡◌, true};
ghost use Rattle.ie_catalogue.specs.Bounds.{keeps};

use crate::row::EntryRow;

mod make;

// Only this crate makes the absent entry, whose row is `None`.
#[derive(Clone, Copy)]
pub struct Entry {
    row: Option<EntryRow>,
    ghost ok: { keeps row ≡ true },
}

impl Entry {
    // The entry's row, or none where it is the absent one.
    pub fn row(&self) -> Option<EntryRow>
        ensures { result ≡ self.now.row }
    {
        self.row
    }
}
