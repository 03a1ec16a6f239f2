// One IE, cut from the front of the octets that are left.
ghost use Rattle.std.specs.Prelude.{◌≡◌, ◌+◌, ◌<◌, ◌≤◌, length, drop};
ghost use Rattle.ie_walk.specs.Cuts.{needed, head, cut_of, cut_meaning};
ghost use Rattle.ie_walk.specs.Shapes.{entry_shape, frame_shape};

use crate::faults::OctetFault;
use crate::skip::Frame;
use ie_catalogue::entry::Entry;
use ie_catalogue::row::Format;

// What follows the IEI: so many octets, or one or two length octets and the value.
#[derive(Clone, Copy)]
pub enum Shape {
    Fixed(u16),
    Tlv,
    TlvE,
}

#[derive(Clone, Copy)]
pub struct Cut<'m> {
    pub whole: &'m [u8],
    pub value: &'m [u8],
}

impl From<&Entry> for Shape {
    ghost from_gives = { λ entry shape. shape ≡ entry_shape entry.now };

    fn from(entry: &Entry) -> Shape {
        // the absent entry covers no octet, so its shape never matters
        entry.row().map_or(Shape::Fixed(0), |row| match row.format {
            Format::TvHalf | Format::T => Shape::Fixed(0),
            Format::Tv => Shape::Fixed(row.least),
            Format::Tlv => Shape::Tlv,
            Format::TlvE => Shape::TlvE,
        })
    }
}

impl From<Frame> for Shape {
    ghost from_gives = { λ frame shape. shape ≡ frame_shape frame };

    fn from(frame: Frame) -> Shape {
        match frame {
            Frame::OneOctet => Shape::Fixed(0),
            Frame::Tlv => Shape::Tlv,
            Frame::TlvE => Shape::TlvE,
        }
    }
}

impl<'m> Cut<'m> {
    // The value of `size` octets after a head of `head` octets.
    fn measured(
        octets: &'m [u8],
        head: usize,
        rest: &'m [u8],
        size: usize,
    ) -> Result<Cut<'m>, OctetFault>
        requires after { rest.now ≡ drop head octets.now }
        requires within { head ≤ length octets.now }
        requires small { head + size < 65540 }
        ensures { cut_meaning result ≡ cut_of octets.now head (head + size) }
    {
        let needed = head + size;
        let value = rest.get(..size).ok_or(OctetFault {
            needed,
            at_hand: octets.len(),
        })?;
        // That `rest` has the value shows that the octets have the whole.
        Ok(Cut {
            whole: &octets[..needed],
            value,
        })
    }
}

impl Shape {
    // The IE at the front of `octets`, whose first is its IEI.
    pub(crate) fn first_ie<'m>(self, octets: &'m [u8]) -> Result<Cut<'m>, OctetFault>
        ensures { cut_meaning result ≡ cut_of octets.now (head self) (needed self octets.now) }
    {
        let at_hand = octets.len();
        match self {
            Shape::Fixed(size) => match octets {
                [_iei, rest @ ..] => Cut::measured(octets, 1, rest, usize::from(size)),
                _ => Err(OctetFault { needed: 1, at_hand }),
            },
            Shape::Tlv => match octets {
                [_iei, size, rest @ ..] => Cut::measured(octets, 2, rest, usize::from(*size)),
                _ => Err(OctetFault { needed: 2, at_hand }),
            },
            Shape::TlvE => match octets {
                [_iei, high, low, rest @ ..] => {
                    let size = u16::from_be_bytes([*high, *low]);
                    Cut::measured(octets, 3, rest, usize::from(size))
                }
                _ => Err(OctetFault { needed: 3, at_hand }),
            },
        }
    }
}
