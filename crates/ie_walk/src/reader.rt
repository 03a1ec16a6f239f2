// What reads a message: a catalogue, and a skip rule for what the catalogue does not know.
ghost use Rattle.std.specs.Prelude.{◌≡◌};
ghost use Rattle.ie_walk.specs.Reading.{shaped, sorted};
ghost use Rattle.ie_walk.specs.Walks.{found_in, found, part_in};

use crate::cut::Shape;
use crate::ie::{Ie, Token};
use crate::skip::SkipRule;
use ie_catalogue::search::Designated;

#[derive_where(Clone, Copy)]
pub struct Reader<'a, C, S> {
    pub catalogue: &'a C,
    pub rule: &'a S,
}

impl<C, S: SkipRule> Reader<'_, C, S> {
    // A known octet is framed by its entry, an unknown one by the skip rule.
    pub(crate) fn shape_of(self, designated: Option<Designated>, octet: u8) -> Shape
        ensures { result ≡ shaped designated (S.SkipRule.framed self.entry.rule.now octet) }
    {
        match designated {
            Some(known) => Shape::from(&known.entry),
            None => Shape::from(self.rule.frame(octet)),
        }
    }

    pub(crate) fn token_of<'m>(self, designated: Option<Designated>, ie: Ie<'m>) -> Token<'m>
        ensures { found_in result ≡ found (sorted designated (S.SkipRule.demands self.entry.rule.now ie.entry.iei)) (part_in ie.entry) }
    {
        match designated {
            Some(Designated { position, .. }) => Token::Known { position, ie },
            None if self.rule.demanding(ie.iei) => Token::Demanding(ie),
            None => Token::Skippable(ie),
        }
    }
}
