// A whole walk: how many known, skippable and demanding IEs a message has, and how many octets of each.
ghost use Rattle.std.specs.Prelude.{◌≡◌, ◌≤◌, length, IfOk};
ghost use Rattle.ie_walk.specs.Faults.{starting};
ghost use Rattle.ie_walk.specs.Reading.{reads};
ghost use Rattle.ie_walk.specs.Runs.{left, walked};
ghost use Rattle.ie_walk.specs.Totals.{one_more, count, no_totals, counted, counted_in, divided, SumsWithin, Divided};
ghost use Rattle.ie_walk.specs.Walks.{part_in, found_in, Inside};

use crate::faults::{IeFault, MessageFault, Placed};
use crate::ie::{Ie, Token};
use crate::message::Message;
use crate::reader::Reader;
use crate::skip::SkipRule;
use crate::walk::Walk;
use ie_catalogue::catalogue::Catalogue;

#[derive(Clone, Copy, PartialEq, Eq, Default, Debug)]
pub struct Count {
    pub ies: usize,
    pub octets: usize,
}

#[derive(Clone, Copy, PartialEq, Eq, Default, Debug)]
pub struct Totals {
    pub known: Count,
    pub skippable: Count,
    pub demanding: Count,
}

// The totals of the whole IEs, and the fault of the tail that follows them, if one does.
#[derive(Clone, Copy, PartialEq, Eq, Debug)]
pub struct Division {
    pub totals: Totals,
    pub unfinished: Option<Placed<IeFault>>,
}

impl Count {
    fn with(self, ie: Ie<'_>) -> Count
        requires ies { self.ies ≤ ie.place }
        requires octets { self.octets ≤ ie.place }
        requires room { Inside (part_in ie) }
        ensures { result ≡ one_more self (length ie.entry.whole.now) }
    {
        Count {
            ies: self.ies + 1,
            octets: self.octets + ie.whole.len(),
        }
    }
}

impl Totals {
    fn with(self, token: Token<'_>) -> Totals
        requires within { SumsWithin self (found_in token).part.place }
        requires room { Inside (found_in token).part }
        ensures { result ≡ count self (found_in token.entry) }
    {
        match token {
            Token::Known { ie, .. } => Totals {
                known: self.known.with(ie),
                ..self
            },
            Token::Skippable(ie) => Totals {
                skippable: self.skippable.with(ie),
                ..self
            },
            Token::Demanding(ie) => Totals {
                demanding: self.demanding.with(ie),
                ..self
            },
        }
    }
}

fn count_rest<C: Catalogue, S: SkipRule>(mut walk: Walk<'_, '_, C, S>) -> Division
    ensures value { counted_in result ≡ counted no_totals (left C.Catalogue S.SkipRule walk.entry) }
    ensures within { SumsWithin result.totals 65535 }
{
    let mut totals = Totals::default();
    let unfinished = loop {
        match walk.step() {
            Ok(Some(token)) => totals = totals.with(token),
            Ok(None) => break None,
            Err(MessageFault::Truncated(fault)) => break Some(fault),
            // Starting and stepping share one fault, so that `?` passes on both; a walk that has begun has only the third.
            Err(_) => unreachable!(),
        }
    };
    Division { totals, unfinished }
}

// Declines as the walk's start does; a truncated message is divided up to its tail.
pub fn divide<C: Catalogue, S: SkipRule>(
    reader: Reader<'_, C, S>,
    message: Message<'_>,
) -> Result<Division, MessageFault>
    ensures value { divided result ≡ starting message.entry.octets.now message.entry.imperative_end (counted no_totals (walked (reads C.Catalogue S.SkipRule reader.entry) message.entry.octets.now message.entry.imperative_end)) }
    ensures within { IfOk result (λ division. SumsWithin division.totals 65535) }
    ensures division { IfOk result (Divided (reads C.Catalogue S.SkipRule reader.entry) message.entry.octets.now message.entry.imperative_end) }
{
    let walk = Walk::start(reader, message)?;
    Ok(count_rest(walk))
}
