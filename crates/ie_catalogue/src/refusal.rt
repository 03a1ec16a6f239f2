// Why an operation on a catalogue declines, each cause with its number. Each enum casts itself, since no generic
// function can cast an enum.
ghost use Rattle.std.specs.Prelude.{◌≡◌};
ghost use Rattle.ie_catalogue.specs.Refusals.{entry_refusal, add_refusal, lend_refusal};

#[derive(Clone, Copy, PartialEq, Eq, Debug)]
pub enum EntryRefusal {
    OutOfBounds = 7,
}

impl EntryRefusal {
    pub fn number(self) -> u8
        ensures { result ≡ (entry_refusal self).number }
    {
        self as u8
    }
}

#[derive(Clone, Copy, PartialEq, Eq, Debug)]
pub enum AddRefusal {
    Full = 6,
    Covered = 8,
}

impl AddRefusal {
    pub fn number(self) -> u8
        ensures { result ≡ (add_refusal self).number }
    {
        self as u8
    }
}

#[derive(Clone, Copy, PartialEq, Eq, Debug)]
pub enum LendRefusal {
    TooMany = 6,
}

impl LendRefusal {
    pub fn number(self) -> u8
        ensures { result ≡ (lend_refusal self).number }
    {
        self as u8
    }
}
