// The lines that the program prints.
ghost use Rattle.std.specs.Prelude.{◌≡◌, [], ◌∷◌, ◌++◌, Some, string_bytes, OnOk};
ghost use Rattle.ie_walk.specs.Walks.{found_in};
ghost use Rattle.iewalk.specs.Lines.{seen_in, ie_line, seen_text, line_text, text};

use ie_text::HexOctet;
use ie_walk::ie::{Ie, Token};
use std::alloc::AllocError;
use std::fmt;
use thiserror::Error;

// What a line says of an IE, of whichever kind.
#[derive(Clone, Copy)]
pub struct Seen {
    iei: HexOctet,
    place: usize,
    size: usize,
}

impl From<Ie<'_>> for Seen {
    ghost from_gives = { λ ie r. r ≡ seen_in ie };

    fn from(ie: Ie<'_>) -> Seen {
        Seen {
            iei: HexOctet(ie.iei),
            place: ie.place,
            size: ie.whole.len(),
        }
    }
}

// By hand, as that of a line: a derived one promises nothing of its text.
impl fmt::Display for Seen {
    ghost output = { λ x. Some (seen_text x) };

    fn fmt<W: fmt::Write>(&self, f: &mut fmt::Formatter<W>) -> fmt::Result {
        let Seen { iei, place, size } = *self;
        write!(f, "iei={iei} at={place} size={size}")
    }
}

#[derive(Clone, Copy)]
pub enum Line {
    Known {
        entry: usize,
        seen: Seen,
    },
    Skippable(Seen),
    Demanding(Seen),
    Truncated {
        iei: HexOctet,
        place: usize,
        needed: usize,
        at_hand: usize,
    },
    Refused(u8),
    End {
        ies: usize,
        octets: usize,
    },
}

impl From<Token<'_>> for Line {
    ghost from_gives = { λ token r. r ≡ ie_line (found_in token) };

    fn from(token: Token<'_>) -> Line {
        match token {
            Token::Known { position, ie } => Line::Known {
                entry: position,
                seen: Seen::from(ie),
            },
            Token::Skippable(ie) => Line::Skippable(Seen::from(ie)),
            Token::Demanding(ie) => Line::Demanding(Seen::from(ie)),
        }
    }
}

impl fmt::Display for Line {
    ghost output = { λ x. Some (line_text x) };

    fn fmt<W: fmt::Write>(&self, f: &mut fmt::Formatter<W>) -> fmt::Result {
        match *self {
            Line::Known { entry, seen } => write!(f, "known entry={entry} {seen}"),
            Line::Skippable(seen) => write!(f, "skippable {seen}"),
            Line::Demanding(seen) => write!(f, "demanding {seen}"),
            Line::Truncated {
                iei,
                place,
                needed,
                at_hand,
            } => {
                write!(
                    f,
                    "truncated iei={iei} at={place} needed={needed} at_hand={at_hand}"
                )
            }
            Line::Refused(number) => write!(f, "refused {number}"),
            Line::End { ies, octets } => write!(f, "end ies={ies} octets={octets}"),
        }
    }
}

// Want of memory. Only `push_line` can make one, so nothing else can give up without cause.
#[derive(Debug, Drop, Error)]
#[error("out of memory")]
pub struct OutOfMemory(AllocError);

pub(crate) fn push_line(out: &mut String, line: Line) -> Result<(), OutOfMemory>
    ensures { OnOk result (string_bytes out.new ≡ string_bytes out.old ++ text (line ∷ [])) }
{
    writeln!(out, "{line}").map_err(|_| OutOfMemory(AllocError))
}
