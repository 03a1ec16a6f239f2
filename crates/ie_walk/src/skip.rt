// How an unknown IE is framed, and whether its octet asks for comprehension.
ghost use Rattle.std.specs.Prelude.{◌≡◌, ℕ, Bool};
ghost use Rattle.ie_walk.specs.declared.skip.Frame.{Frame};

#[derive(Clone, Copy, PartialEq, Eq, Debug)]
pub enum Frame {
    OneOctet,
    Tlv,
    TlvE,
}

// Its meaning gives each octet a frame, and says whether it is demanding; a question changes nothing.
pub trait SkipRule {
    ghost framed: { Self → ℕ → Frame };

    ghost demands: { Self → ℕ → Bool };

    fn frame(&self, octet: u8) -> Frame
        ensures { result ≡ framed self.now octet };

    fn demanding(&self, octet: u8) -> bool
        ensures { result ≡ demands self.now octet };
}
