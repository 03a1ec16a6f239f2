// A view: a layer over any catalogue that turns some of its entries into the absent entry; positions never move.
ghost use Rattle.std.specs.Prelude.{◌≡◌, Bool, map};
ghost use Rattle.ie_catalogue.specs.declared.entry.Entry.{Entry};
ghost use Rattle.ie_catalogue.specs.Few.{few_mapped};
ghost use Rattle.ie_catalogue.specs.Views.{hiding};

use crate::catalogue::Catalogue;
use crate::entry::Entry;

// What a view hides.
pub trait Hides {
    ghost hidden: { Self → Entry → Bool };

    fn hides(&self, entry: &Entry) -> bool
        ensures { result ≡ hidden self.now entry.now };
}

#[derive(Drop)]
pub struct View<C, H> {
    pub below: C,
    pub by: H,
}

impl<C: Catalogue, H: Hides> Catalogue for View<C, H> {
    ghost entries = { λ v. map (hiding (H.Hides.hidden v.by)) (C.Catalogue.entries v.below) };

    ghost few = { λ v. few_mapped _ _ (C.Catalogue.few v.below) };

    fn count(&self) -> usize {
        self.below.count()
    }

    fn entry(&self, position: usize) -> Option<Entry> {
        let entry = self.below.entry(position)?;
        Some(entry.hidden_if(self.by.hides(&entry)))
    }
}
