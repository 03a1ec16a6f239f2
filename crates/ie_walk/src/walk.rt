// The walk: from the imperative end to the message's end, one IE a step.
ghost use Rattle.std.specs.Prelude.{◌≡◌, ◌+◌, ◌≤◌, length, drop};
ghost use Rattle.ie_walk.specs.Faults.{starting};
ghost use Rattle.ie_walk.specs.Reading.{reads};
ghost use Rattle.ie_walk.specs.Walks.{ie_of, part_in_result, outcome, stepped, moved};

use crate::cut::Shape;
use crate::faults::{IeFault, MessageFault, Placed};
use crate::ie::{Ie, Token};
use crate::message::Message;
use crate::reader::Reader;
use crate::skip::SkipRule;
use ie_catalogue::catalogue::Catalogue;
use ie_catalogue::search::find;

// The IE at the front of `octets`, which begin at `place` with its IEI.
fn ie_at<'m>(
    shape: Shape,
    iei: u8,
    place: usize,
    octets: &'m [u8],
) -> Result<Ie<'m>, Placed<IeFault>>
    ensures { part_in_result result ≡ ie_of shape iei place octets.now }
{
    let cut = shape.first_ie(octets).map_err(|fault| Placed {
        thing: IeFault { iei, octets: fault },
        place,
    })?;
    Ok(Ie {
        iei,
        place,
        whole: cut.whole,
        value: cut.value,
    })
}

#[derive(Drop)]
pub struct Walk<'m, 'a, C, S> {
    message: &'m [u8],
    place: usize,
    reader: Reader<'a, C, S>,
    ghost short: { length message.now ≤ 65535 },
    ghost within: { place ≤ length message.now },
}

impl<'m, 'a, C: Catalogue, S: SkipRule> Walk<'m, 'a, C, S> {
    // Not at the top: these name the struct, whose ghost fields import what stands there.
    ghost use Rattle.ie_walk.specs.Runs.{walked, left, resumed, standing, begun, Onward};

    // Refusal 1 for a message of more than 65,535 octets, 2 for an imperative end beyond it.
    pub fn start(
        reader: Reader<'a, C, S>,
        message: Message<'m>,
    ) -> Result<Walk<'m, 'a, C, S>, MessageFault>
        ensures { begun result ≡ starting message.entry.octets.now message.entry.imperative_end (message.entry.octets, message.entry.imperative_end, reader.entry) }
    {
        let Message {
            octets,
            imperative_end,
        } = message;
        if octets.len() > 65535 {
            return Err(MessageFault::TooLong);
        }
        if imperative_end > octets.len() {
            return Err(MessageFault::ImperativeEndBeyond);
        }
        Ok(Walk {
            message: octets,
            place: imperative_end,
            reader,
        })
    }

    // What stands at the walk's place, which it keeps.
    fn ahead(&self) -> Result<Option<Token<'m>>, MessageFault>
        ensures value { outcome result ≡ stepped (reads C.Catalogue S.SkipRule self.now.reader) self.now.place (drop self.now.place self.now.message.now) }
        ensures rest { left C.Catalogue S.SkipRule self.now ≡ resumed (outcome result) (walked (reads C.Catalogue S.SkipRule self.now.reader) self.now.message.now (moved self.now.place (outcome result))) }
        ensures onward { Onward (outcome result) self.now.message.now self.now.place (moved self.now.place (outcome result)) }
    {
        let octets = &self.message[self.place..];
        let [iei, ..] = octets else {
            return Ok(None);
        };
        let designated = find(self.reader.catalogue, *iei).found;
        let shape = self.reader.shape_of(designated, *iei);
        let ie = ie_at(shape, *iei, self.place, octets)?;
        Ok(Some(self.reader.token_of(designated, ie)))
    }

    // The next token, none at the end, or refusal 3, which the same step then repeats.
    pub fn step(&mut self) -> Result<Option<Token<'m>>, MessageFault>
        ensures value { outcome result ≡ stepped (reads C.Catalogue S.SkipRule self.old.reader) self.old.place (drop self.old.place self.old.message.now) }
        ensures after { standing self.new ≡ (self.old.message, moved self.old.place (outcome result), self.old.reader) }
        ensures rest { left C.Catalogue S.SkipRule self.old ≡ resumed (outcome result) (left C.Catalogue S.SkipRule self.new) }
        ensures onward { Onward (outcome result) self.old.message.now self.old.place self.new.place }
    {
        let ahead = self.ahead()?;
        if let Some(token) = ahead {
            self.place += token.ie().whole.len();
        }
        Ok(ahead)
    }
}
