// A release view hides the entries of later releases.
ghost use Rattle.ie_catalogue.specs.Views.{later};

use crate::entry::Entry;
use crate::view::{Hides, View};

// The release that a view is for.
#[derive(Clone, Copy, PartialEq, Eq, PartialOrd, Ord, Debug)]
pub struct Release(pub u8);

pub type ReleaseView<C> = View<C, Release>;

impl Hides for Release {
    ghost hidden = { λ r. later r.0 };

    fn hides(&self, entry: &Entry) -> bool {
        entry.row().is_some_and(|row| self.0 < row.release)
    }
}
