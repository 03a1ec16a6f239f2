// What can be wrong with a message: octets are lacking, in an IE, in a message.
ghost use Rattle.std.specs.Prelude.{◌≡◌};
ghost use Rattle.ie_walk.specs.declared.faults.MessageFault.TheVariants.{Truncated};
ghost use Rattle.ie_walk.specs.Faults.{message_refusal};

// A thing and its place, whichever thing it is.
#[derive(Clone, Copy, PartialEq, Eq, Debug)]
pub struct Placed<T> {
    pub thing: T,
    pub place: usize,
}

// Octets, counted from the IEI on. While a length octet is lacking, only the head is needed.
#[derive(Clone, Copy, PartialEq, Eq, Debug)]
pub struct OctetFault {
    pub needed: usize,
    pub at_hand: usize,
}

#[derive(Clone, Copy, PartialEq, Eq, Debug)]
pub struct IeFault {
    pub iei: u8,
    pub octets: OctetFault,
}

#[derive(Clone, Copy, PartialEq, Eq, Debug)]
pub enum MessageFault {
    TooLong,
    ImperativeEndBeyond,
    Truncated(Placed<IeFault>),
}

// For `?`; `from_gives` says which fault came.
impl From<Placed<IeFault>> for MessageFault {
    ghost from_gives = { λ fault r. r ≡ Truncated fault };

    fn from(fault: Placed<IeFault>) -> MessageFault {
        MessageFault::Truncated(fault)
    }
}

impl MessageFault {
    // A truncated message carries its fault, so the cases have no numbers of their own.
    pub fn number(self) -> u8
        ensures { result ≡ (message_refusal self).number }
    {
        match self {
            MessageFault::TooLong => 1,
            MessageFault::ImperativeEndBeyond => 2,
            MessageFault::Truncated(_) => 3,
        }
    }
}
