// UL NAS TRANSPORT (TS 24.501, Release 16): its known IEs, and where its imperative part ends.
#![tactic(auto)]

ghost use Rattle.std.specs.Prelude.{◌≡◌, map};
ghost use Rattle.ie_catalogue.specs.Entries.{meant};
ghost use Rattle.ie_catalogue.specs.Lending.{lent_entries};
ghost use Rattle.ul_nas_transport.specs.Table.{table, Holds};
ghost use Rattle.ul_nas_transport.specs.Imperative.{imperative_end};

use ie_catalogue::lent::LentRows;
use ie_catalogue::row::{Direction, EntryRow, Format, Presence, Test};

const UPLINK: EntryRow = EntryRow {
    direction: Direction::Up,
    ..EntryRow::OPTIONAL
};

const ROWS: [EntryRow; 8] = [
    // PDU session ID
    EntryRow {
        iei: 0x12,
        format: Format::Tv,
        least: 1,
        greatest: 1,
        presence: Presence::Conditional,
        expect: Test::IfOctet {
            place: 3,
            mask: 0x0f,
            value: 1,
        },
        ..UPLINK
    },
    // Old PDU session ID
    EntryRow {
        iei: 0x59,
        format: Format::Tv,
        least: 1,
        greatest: 1,
        ..UPLINK
    },
    // Request type
    EntryRow {
        iei: 0x8,
        format: Format::TvHalf,
        ..UPLINK
    },
    // S-NSSAI
    EntryRow {
        iei: 0x22,
        format: Format::Tlv,
        least: 1,
        greatest: 8,
        ..UPLINK
    },
    // DNN
    EntryRow {
        iei: 0x25,
        format: Format::Tlv,
        least: 1,
        greatest: 100,
        ..UPLINK
    },
    // Additional information
    EntryRow {
        iei: 0x24,
        format: Format::Tlv,
        least: 1,
        greatest: 255,
        ..UPLINK
    },
    // MA PDU session information
    EntryRow {
        iei: 0xa,
        format: Format::TvHalf,
        release: 16,
        ..UPLINK
    },
    // Release assistance indication
    EntryRow {
        iei: 0xf,
        format: Format::TvHalf,
        release: 16,
        ..UPLINK
    },
];

pub fn rows() -> &'static [EntryRow]
    ensures { result.now ≡ table }
{
    &ROWS
}

// The rows, lent: each position holds its row of the table, and none is absent.
pub fn catalogue() -> LentRows<'static>
    ensures value { lent_entries result ≡ map meant table }
    ensures present { Holds result }
{
    LentRows::lend(rows()).unwrap()
}

// Octets 4 and 5 give the length of the payload container, which follows them and ends the imperative part.
pub fn imperative_end(message: &[u8]) -> usize
    ensures { result ≡ imperative_end message.now }
{
    match message {
        [_, _, _, _, high, low, ..] => 6 + usize::from(u16::from_be_bytes([*high, *low])),
        _ => 6,
    }
}
