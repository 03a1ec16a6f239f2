// The search for the first entry that covers an octet.
ghost use Rattle.std.specs.Prelude.{◌≡◌, ◌+◌, ◌<◌, length};
ghost use Rattle.ie_catalogue.specs.Search.{covering_at, finds, asks, searched, designates};

use crate::catalogue::Catalogue;
use crate::entry::Entry;

// The entry that an octet designates, with its position.
#[derive(Clone, Copy)]
pub struct Designated {
    pub position: usize,
    pub entry: Entry,
}

// What a search found, and how many entries it asked of the catalogue.
#[derive(Clone, Copy)]
pub struct Search {
    pub found: Option<Designated>,
    pub asked: usize,
}

// A catalogue with the number of entries asked of it: each question is counted where it is put.
#[derive(Drop)]
struct Questions<'c, C> {
    catalogue: &'c C,
    asked: usize,
}

impl<C: Catalogue> Questions<'_, C> {
    // The entry at the position, if it covers the octet. A hidden entry covers nothing.
    fn covering(&mut self, position: usize, octet: u8) -> Option<Designated>
        requires { self.old.asked < 64 }
        ensures value { result ≡ covering_at (C.Catalogue.entries self.old.catalogue.now) position octet }
        ensures after { self.new ≡ record { catalogue = self.old.catalogue; asked = self.old.asked + 1 } }
    {
        self.asked += 1;
        let entry = self
            .catalogue
            .entry(position)
            .filter(|entry| entry.covers(octet))?;
        Some(Designated { position, entry })
    }

    // Goes on past hidden entries.
    fn first_covering(&mut self, octet: u8) -> Option<Designated>
        requires { self.old.asked ≡ 0 }
        ensures value { result ≡ finds (C.Catalogue.entries self.old.catalogue.now) octet }
        ensures asked { self.new.asked ≡ asks result (length (C.Catalogue.entries self.old.catalogue.now)) }
    {
        // By position: a catalogue is asked for one entry at a time. No chain: a closure that counts would leave the
        // proof without the count.
        for position in 0..self.catalogue.count() {
            if let Some(designated) = self.covering(position, octet) {
                return Some(designated);
            }
        }
        None
    }
}

// It asks each entry up to the one designated, or all of them where the octet is unknown.
pub fn find<C: Catalogue>(catalogue: &C, octet: u8) -> Search
    ensures { result ≡ searched (C.Catalogue.entries catalogue.now) octet }
{
    let mut questions = Questions {
        catalogue,
        asked: 0,
    };
    let found = questions.first_covering(octet);
    Search {
        found,
        asked: questions.asked,
    }
}

// The position that the octet designates, or none where it is unknown.
pub fn designate<C: Catalogue>(catalogue: &C, octet: u8) -> Option<usize>
    ensures { result ≡ designates (C.Catalogue.entries catalogue.now) octet }
{
    find(catalogue, octet)
        .found
        .map(|designated| designated.position)
}
