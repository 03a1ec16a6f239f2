// The 'comprehension required' scheme as a layer over any skip rule, whose frames it keeps.
ghost use Rattle.std.specs.Prelude.{◌||◌};
ghost use Rattle.ie_walk.specs.Frames.{comprehended};

use crate::skip::{Frame, SkipRule};

#[derive(Drop)]
pub struct Comprehension<S> {
    pub below: S,
}

impl<S: SkipRule> SkipRule for Comprehension<S> {
    ghost framed = { λ s. S.SkipRule.framed s.below };

    ghost demands = { λ s octet. S.SkipRule.demands s.below octet || comprehended (S.SkipRule.framed s.below octet) octet };

    fn frame(&self, octet: u8) -> Frame {
        self.below.frame(octet)
    }

    fn demanding(&self, octet: u8) -> bool {
        self.below.demanding(octet)
            || matches!(
                (self.below.frame(octet), octet),
                (Frame::Tlv, ..=0x0f) | (Frame::TlvE, 0x7e | 0x7f)
            )
    }
}
