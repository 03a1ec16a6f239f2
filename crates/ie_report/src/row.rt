// What a report says of one IE.
ghost use Rattle.std.specs.Prelude.{◌≡◌};
ghost use Rattle.ie_report.specs.Numbers.{row_number};
ghost use Rattle.ie_report.specs.Rows.{value_of, taken_by};

use ie_tally::positions::Positions;
use ie_tally::tally::Tally;

// What became of the IE.
#[derive(Clone, Copy, PartialEq, Eq, Debug)]
pub enum RowKind {
    Taken = 1,
    Surplus = 2,
    OutOfSequence = 3,
    IllSized = 4,
    UnknownDemanding = 5,
}

impl RowKind {
    pub fn number(self) -> u8
        ensures { result ≡ row_number self }
    {
        self as u8
    }
}

// A plain record of numbers, which other programs read: so `position` is 64 where no entry is designated, and no
// `Option`. The value's place is the one behind the head, also where the value is empty. `half` is the value of
// format 1, and 0 for all others.
#[derive(Clone, Copy, PartialEq, Eq, Debug)]
pub struct Row {
    pub kind: RowKind,
    pub position: usize,
    pub iei: u8,
    pub place: usize,
    pub size: usize,
    pub value_place: usize,
    pub value_length: usize,
    pub half: u8,
}

impl Row {
    // The value's octets in the row's message; of any other message, what stands at their places.
    pub fn value<'m>(&self, message: &'m [u8]) -> &'m [u8]
        ensures { result.now ≡ value_of self.now message.now }
    {
        let rest = message.get(self.value_place..).unwrap_or_default();
        rest.get(..self.value_length).unwrap_or(rest)
    }

    // The position that the row takes, if it takes one.
    pub(crate) fn taken(&self) -> Positions
        ensures { result ≡ taken_by self.now }
    {
        match self.kind {
            RowKind::Taken => Positions::none().with(self.position),
            _ => Positions::none(),
        }
    }
}
