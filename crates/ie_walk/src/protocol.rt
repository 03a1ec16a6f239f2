// The skip rules of the families of protocols.
ghost use Rattle.std.specs.Prelude.{false};
ghost use Rattle.ie_walk.specs.Frames.{family_frame};

use crate::skip::{Frame, SkipRule};

// EMM and ESM are protocols of EPS, 5GMM and 5GSM of 5GS; all others have the plain rule.
#[derive(Clone, Copy, PartialEq, Eq, Debug)]
pub enum ProtocolFamily {
    Eps,
    FiveGs,
    Plain,
}

impl SkipRule for ProtocolFamily {
    ghost framed = { family_frame };

    ghost demands = { λ _ _. false };

    fn frame(&self, octet: u8) -> Frame {
        match (*self, octet) {
            (_, 0x80..) => Frame::OneOctet,
            (ProtocolFamily::Eps, 0x78..) | (ProtocolFamily::FiveGs, 0x70..) => Frame::TlvE,
            _ => Frame::Tlv,
        }
    }

    fn demanding(&self, _octet: u8) -> bool {
        false
    }
}
