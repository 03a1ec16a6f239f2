// How severe the diagnoses of a message are.
ghost use Rattle.std.specs.Prelude.{◌≡◌};
ghost use Rattle.ie_tally.specs.Severities.{severity_number, clear, greater, by_presence};
ghost use Rattle.ie_tally.specs.Joining.{severity_laws};

use crate::tally::Tally;
use ie_catalogue::row::Presence;

// Nothing that matters; an error as of a conditional IE; an error as of a mandatory IE.
#[derive(Clone, Copy, PartialEq, Eq, PartialOrd, Ord, Default, Debug)]
pub enum Severity {
    #[default]
    Clear = 0,
    Conditional = 1,
    Mandatory = 2,
}

// That of an ill-sized IE, by the presence of its entry.
impl From<Presence> for Severity {
    ghost from_gives = { λ presence r. r ≡ by_presence presence };

    fn from(presence: Presence) -> Severity {
        match presence {
            Presence::Mandatory => Severity::Mandatory,
            Presence::Conditional => Severity::Conditional,
            Presence::Optional => Severity::Clear,
        }
    }
}

impl Severity {
    pub fn number(self) -> u8
        ensures { result ≡ severity_number self }
    {
        self as u8
    }
}

// The greatest.
impl Tally for Severity {
    ghost neutral = { clear };

    ghost joined = { greater };

    ghost laws = { severity_laws };

    fn none() -> Severity {
        Self::default()
    }

    // By number, not `max`: a derived comparison takes half as long again, and keeps a fold from running on many at once.
    fn join(self, other: Severity) -> Severity {
        if self.number() < other.number() {
            other
        } else {
            self
        }
    }
}
