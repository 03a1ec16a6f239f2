// A direction view hides the entries of the other direction only.
ghost use Rattle.ie_catalogue.specs.Views.{across};

use crate::entry::Entry;
use crate::row::Direction;
use crate::view::{Hides, View};

// The direction that a view is for.
#[derive(Clone, Copy, PartialEq, Eq, Debug)]
pub enum Link {
    Up,
    Down,
}

pub type DirectionView<C> = View<C, Link>;

impl Hides for Link {
    ghost hidden = { across };

    fn hides(&self, entry: &Entry) -> bool {
        entry.row().is_some_and(|row| {
            matches!(
                (*self, row.direction),
                (Link::Up, Direction::Down) | (Link::Down, Direction::Up)
            )
        })
    }
}
