// How an entry comes to be, and which octets it covers.
ghost use Rattle.std.specs.Prelude.{◌≡◌};
ghost use Rattle.ie_catalogue.specs.Entries.{making, meant, absent, covers, presence_of, expect_of, forbid_of, limit_of};
ghost use Rattle.ie_catalogue.specs.Refusals.{answered, entry_refusal};
ghost use Rattle.ie_catalogue.specs.Sizes.{sized, size_of};
ghost use Rattle.ie_catalogue.specs.Spans.{span};
ghost use Rattle.ie_catalogue.specs.Views.{unless_hidden};

use crate::entry::Entry;
use crate::refusal::EntryRefusal;
use crate::row::{EntryRow, Format, Presence, Test};
use crate::size::Size;

fn sized(least: usize, greatest: usize, length: usize) -> Size
    ensures { result ≡ sized least greatest length }
{
    if length < least {
        Size::Short
    } else if length > greatest {
        Size::Long
    } else {
        Size::Fitting
    }
}

impl Entry {
    // The entry of a row, or refusal 7 where a field is out of its bounds.
    pub fn new(row: EntryRow) -> Result<Entry, EntryRefusal>
        ensures { answered entry_refusal result ≡ making row }
    {
        if row.is_well_formed() {
            Ok(Entry::meant(&row))
        } else {
            Err(EntryRefusal::OutOfBounds)
        }
    }

    pub(crate) fn absent() -> Entry
        ensures { result ≡ absent }
    {
        Entry { row: None }
    }

    // The absent entry where a view hides this one.
    pub(crate) fn hidden_if(self, hide: bool) -> Entry
        ensures { result ≡ unless_hidden hide self }
    {
        if hide { Entry::absent() } else { self }
    }

    // What a lent row means: an ill-formed one means the absent entry.
    pub(crate) fn meant(row: &EntryRow) -> Entry
        ensures { result ≡ meant row.now }
    {
        Entry {
            row: row.is_well_formed().then_some(*row),
        }
    }

    pub fn covers(&self, octet: u8) -> bool
        ensures { result ≡ covers self.now octet }
    {
        self.row.is_some_and(|row| match row.format {
            Format::TvHalf => octet / 16 == row.iei,
            _ => octet == row.iei,
        })
    }

    // The absent entry is optional.
    pub fn presence(&self) -> Presence
        ensures { result ≡ presence_of self.now }
    {
        self.row.map_or(Presence::Optional, |row| row.presence)
    }

    // When the entry is expected; the absent one never is.
    pub fn expect(&self) -> Test
        ensures { result ≡ expect_of self.now }
    {
        self.row.map_or(Test::Never, |row| row.expect)
    }

    // When the entry is forbidden; the absent one never is.
    pub fn forbid(&self) -> Test
        ensures { result ≡ forbid_of self.now }
    {
        self.row.map_or(Test::Never, |row| row.forbid)
    }

    // How often the entry may be taken; the absent one never is.
    pub fn limit(&self) -> u8
        ensures { result ≡ limit_of self.now }
    {
        self.row.map_or(0, |row| row.limit)
    }

    // Whether a value of so many octets is shorter or longer than the entry allows.
    pub fn size_test(&self, length: usize) -> Size
        ensures { result ≡ size_of self.now length }
    {
        let (least, greatest) = self.row.map_or((0, 0), |row| (row.least, row.greatest));
        sized(usize::from(least), usize::from(greatest), length)
    }

    // The first octet that the entry covers, and the end of those that it covers.
    pub(crate) fn span(&self) -> (u16, u16)
        ensures { result ≡ span self.now }
    {
        self.row.map_or((0, 0), |row| {
            let iei = u16::from(row.iei);
            match row.format {
                Format::TvHalf => (iei * 16, iei * 16 + 16),
                _ => (iei, iei + 1),
            }
        })
    }
}
