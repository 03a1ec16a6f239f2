// Refusals 6, 7 and 8; an empty and a full catalogue; hidden entries; how many entries a search asks.
use crate::catalogue::Catalogue;
use crate::checked::CheckedCatalogue;
use crate::entry::Entry;
use crate::lent::LentRows;
use crate::release::Release;
use crate::row::{Direction, EntryRow, Format, Presence, Test};
use crate::search::{designate, find};
use crate::view::View;
use std::cell::Cell;
use std::test::Fail;

fn optional(iei: u8, format: Format, greatest: u16, release: u8) -> EntryRow {
    EntryRow {
        iei,
        format,
        greatest,
        release,
        ..EntryRow::OPTIONAL
    }
}

// A catalogue that counts the entries asked of it.
#[derive(Drop)]
struct Counting<'c, C> {
    below: &'c C,
    asked: Cell<usize>,
}

impl<C: Catalogue> Catalogue for Counting<'_, C> {
    ghost entries = { λ c. C.Catalogue.entries c.below.now };

    ghost few = { λ c. C.Catalogue.few c.below.now };

    fn count(&self) -> usize {
        self.below.count()
    }

    fn entry(&self, position: usize) -> Option<Entry> {
        self.asked.set(self.asked.get().wrapping_add(1));
        self.below.entry(position)
    }
}

#[test]
fn entry_out_of_bounds(rt: HostRuntime) -> Result<(), Fail> {
    let refusal = Entry::new(optional(16, Format::TvHalf, 0, 15))
        .err()
        .ok_or("IEI 16 has no half octet")?;
    assert_eq!(rt; refusal.number(), 7);
    Ok(())
}

#[test]
fn added_twice(rt: HostRuntime) -> Result<(), Fail> {
    let mut catalogue = CheckedCatalogue::new(rt.alloc())?;
    catalogue.add(Entry::new(optional(0x9, Format::TvHalf, 0, 15))?)?;
    let refusal = catalogue
        .add(Entry::new(optional(0x9a, Format::T, 0, 15))?)
        .err()
        .ok_or("9A is covered by the half octet 9")?;
    assert_eq!(rt; refusal.number(), 8);
    assert_eq!(rt; catalogue.count(), 1);
    Ok(())
}

#[test]
fn full_at_64(rt: HostRuntime) -> Result<(), Fail> {
    let mut catalogue = CheckedCatalogue::new(rt.alloc())?;
    for iei in 0..64 {
        catalogue.add(Entry::new(optional(iei, Format::Tlv, 9, 15))?)?;
    }
    assert_eq!(rt; designate(&catalogue, 63), Some(63));
    assert_eq!(rt; find(&catalogue, 64).asked, 64);
    let refusal = catalogue
        .add(Entry::new(optional(64, Format::Tlv, 9, 15))?)
        .err()
        .ok_or("there is room for 64")?;
    assert_eq!(rt; refusal.number(), 6);
    Ok(())
}

#[test]
fn lent_rows(rt: HostRuntime) -> Result<(), Fail> {
    let rows = [optional(0x25, Format::Tlv, 9, 15); 65];
    let refusal = LentRows::lend(&rows).err().ok_or("65 rows")?;
    assert_eq!(rt; refusal.number(), 6);
    let empty = LentRows::lend(&rows[0..0])?;
    assert_eq!(rt; find(&empty, 0x25).asked, 0);
    assert_eq!(rt; designate(&LentRows::lend(&rows[0..64])?, 0x25), Some(0));
    Ok(())
}

#[test]
fn found_behind_hidden(rt: HostRuntime) -> Result<(), Fail> {
    let rows = [
        optional(0x25, Format::Tlv, 256, 15),
        optional(0x25, Format::Tlv, 100, 16),
        optional(0x25, Format::Tlv, 50, 15),
    ];
    let lent = LentRows::lend(&rows)?;
    let counting = Counting {
        below: &lent,
        asked: Cell::new(0),
    };
    let view = View {
        below: &counting,
        by: Release(15),
    };
    assert_eq!(rt; designate(&lent, 0x25), Some(1));
    assert_eq!(rt; designate(&view, 0x25), Some(2));
    assert_eq!(rt; counting.asked.get(), 3);
    let unknown = find(&view, 0x26);
    assert_eq!(rt; unknown.asked, 3);
    assert_eq!(rt; counting.asked.get(), 6);
    Ok(())
}

#[test]
fn absent_entry_added(rt: HostRuntime) -> Result<(), Fail> {
    let rows = [optional(0x25, Format::Tlv, 100, 16)];
    let view = View {
        below: LentRows::lend(&rows)?,
        by: Release(15),
    };
    let mut catalogue = CheckedCatalogue::new(rt.alloc())?;
    let hidden = view.entry(0).ok_or("the position is there")?;
    catalogue.add(hidden)?;
    assert_eq!(rt; catalogue.count(), 1);
    assert_eq!(rt; designate(&catalogue, 0x25), None);
    Ok(())
}
