// What the entries, one by one, lack or have too much of once the whole message is judged.
ghost use Rattle.std.specs.Prelude.{◌≡◌};
ghost use Rattle.std.specs.Option.{option_map};
ghost use Rattle.ie_report.specs.Diagnosing.{holds, at_position, wrong_with};

use crate::diagnosis::{Diagnosis, DiagnosisKind};
use ie_catalogue::entry::Entry;
use ie_catalogue::row::{Presence, Test};
use ie_tally::positions::Positions;
use ie_walk::faults::Placed;

// What the tests of entries ask about: the imperative part and the entries taken.
#[derive(Clone, Copy)]
pub struct Closing<'m> {
    pub imperative: &'m [u8],
    pub taken: Positions,
}

impl Closing<'_> {
    fn holds(self, test: Test) -> bool
        ensures { result ≡ holds self.entry.imperative.now self.entry.taken.bits test }
    {
        match test {
            Test::Never => false,
            Test::IfPresent(position) => self.taken.has(usize::from(position)),
            Test::IfAbsent(position) => !self.taken.has(usize::from(position)),
            Test::IfOctet { place, mask, value } => self
                .imperative
                .get(usize::from(place))
                .is_some_and(|octet| *octet & mask == value),
        }
    }

    // What is wrong with an entry at the end, if anything. An entry and its position, not a `Designated`: no octet
    // designates it.
    fn wrong_with(self, entry: &Entry, position: usize) -> Option<DiagnosisKind>
        ensures { result ≡ wrong_with self.entry.imperative.now self.entry.taken.bits position entry.now }
    {
        let there = self.taken.has(position);
        match entry.presence() {
            Presence::Mandatory if !there => Some(DiagnosisKind::MandatoryMissing),
            Presence::Conditional if !there && self.holds(entry.expect()) => {
                Some(DiagnosisKind::ExpectedMissing)
            }
            Presence::Conditional if there && self.holds(entry.forbid()) => {
                Some(DiagnosisKind::ForbiddenPresent)
            }
            _ => None,
        }
    }

    // The diagnosis of the entry at a position; a hidden entry has none. No octet and no place: 0, as the rules say.
    pub(crate) fn close(self, entry: &Entry, position: usize) -> Option<Placed<Diagnosis>>
        ensures { result ≡ option_map (at_position position) (wrong_with self.entry.imperative.now self.entry.taken.bits position entry.now) }
    {
        self.wrong_with(entry, position).map(|kind| Placed {
            thing: Diagnosis {
                kind,
                position,
                iei: 0,
            },
            place: 0,
        })
    }
}
