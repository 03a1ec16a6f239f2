// The test of a row's bounds.
ghost use Rattle.std.specs.Prelude.{◌≡◌};
ghost use Rattle.ie_catalogue.specs.Bounds.{framed, tested, well_formed};

use crate::row::{EntryRow, Format, Test};

impl Test {
    fn is_within(self) -> bool
        ensures { result ≡ tested self }
    {
        match self {
            Test::Never => true,
            Test::IfPresent(position) => position <= 63,
            Test::IfAbsent(position) => position <= 63,
            Test::IfOctet { place, .. } => place <= 65534,
        }
    }
}

impl EntryRow {
    fn is_framed(&self) -> bool
        ensures { result ≡ framed self.now.format self.now.iei self.now.least self.now.greatest }
    {
        let EntryRow {
            iei,
            least,
            greatest,
            ..
        } = *self;
        match self.format {
            Format::TvHalf => iei <= 15 && least == 0 && greatest == 0,
            Format::T => least == 0 && greatest == 0,
            Format::Tv => least == greatest && 1 <= least && greatest <= 255,
            Format::Tlv => least <= greatest && greatest <= 255,
            Format::TlvE => least <= greatest,
        }
    }

    pub(crate) fn is_well_formed(&self) -> bool
        ensures { result ≡ well_formed self.now }
    {
        self.is_framed()
            && (1..=16).contains(&self.limit)
            && self.release <= 99
            && self.expect.is_within()
            && self.forbid.is_within()
    }
}
