// An information element as parts of the message that it stands in.
ghost use Rattle.std.specs.Prelude.{◌≡◌};
ghost use Rattle.ie_walk.specs.Walks.{ie_in};

// `whole` is all its octets, the IEI first; `value` is what follows the IEI and the length octets. No bound is kept
// here, though all of a walk's IEs have it: whoever writes an IE would owe it.
#[derive(Clone, Copy)]
pub struct Ie<'m> {
    pub iei: u8,
    pub place: usize,
    pub whole: &'m [u8],
    pub value: &'m [u8],
}

// What a step gives: an IE that the catalogue knows at a position, or an unknown one.
#[derive(Clone, Copy)]
pub enum Token<'m> {
    Known { position: usize, ie: Ie<'m> },
    Skippable(Ie<'m>),
    Demanding(Ie<'m>),
}

impl<'m> Token<'m> {
    pub fn ie(self) -> Ie<'m>
        ensures { result ≡ ie_in self.entry }
    {
        match self {
            Token::Known { ie, .. } | Token::Skippable(ie) | Token::Demanding(ie) => ie,
        }
    }
}
