// What a table of information elements says of one of them, not yet checked.
ghost use Rattle.std.specs.Prelude.{◌≡◌};
ghost use Rattle.ie_catalogue.specs.Formats.{format_number};

// How the IE is laid out, with the standard's number for it.
#[derive(Clone, Copy, PartialEq, Eq, Debug)]
pub enum Format {
    TvHalf = 1,
    T = 2,
    Tv = 3,
    Tlv = 4,
    TlvE = 6,
}

impl Format {
    pub fn number(self) -> u8
        ensures { result ≡ format_number self }
    {
        self as u8
    }
}

#[derive(Clone, Copy, PartialEq, Eq, Debug)]
pub enum Presence {
    Mandatory,
    Conditional,
    Optional,
}

#[derive(Clone, Copy, PartialEq, Eq, Debug)]
pub enum Direction {
    Up,
    Down,
    Both,
}

// A static condition: on whether an entry was taken, or on an octet of the imperative part.
#[derive(Clone, Copy, PartialEq, Eq, Debug)]
pub enum Test {
    Never,
    IfPresent(u8),
    IfAbsent(u8),
    IfOctet { place: u16, mask: u8, value: u8 },
}

// Lengths count the value alone.
#[derive(Clone, Copy, PartialEq, Eq, Debug)]
pub struct EntryRow {
    pub iei: u8,
    pub format: Format,
    pub least: u16,
    pub greatest: u16,
    pub presence: Presence,
    pub limit: u8,
    pub release: u8,
    pub direction: Direction,
    pub expect: Test,
    pub forbid: Test,
}

impl EntryRow {
    // A row to start from: no value, both ways, once, from the first release of 5GS on, never expected nor forbidden.
    pub const OPTIONAL: EntryRow = EntryRow {
        iei: 0,
        format: Format::T,
        least: 0,
        greatest: 0,
        presence: Presence::Optional,
        limit: 1,
        release: 15,
        direction: Direction::Both,
        expect: Test::Never,
        forbid: Test::Never,
    };
}
