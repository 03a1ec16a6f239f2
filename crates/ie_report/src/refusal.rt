// Why a report is declined.
ghost use Rattle.std.specs.Prelude.{◌≡◌};
ghost use Rattle.ie_report.specs.declared.refusal.ReportRefusal.TheVariants.{Message};
ghost use Rattle.ie_report.specs.Numbers.{report_refusal};

use ie_walk::faults::MessageFault;

// A fault of the message, or a table with too few places.
#[derive(Clone, Copy, PartialEq, Eq, Debug)]
pub enum ReportRefusal {
    Message(MessageFault),
    RowPlaces,
    DiagnosisPlaces,
}

// For `?`; `from_gives` says which fault came.
impl From<MessageFault> for ReportRefusal {
    ghost from_gives = { λ fault r. r ≡ Message fault };

    fn from(fault: MessageFault) -> ReportRefusal {
        Self::Message(fault)
    }
}

impl ReportRefusal {
    // No cast, since one case holds a fault, which has a number of its own.
    pub fn number(self) -> u8
        ensures { result ≡ (report_refusal self).number }
    {
        match self {
            ReportRefusal::Message(fault) => fault.number(),
            ReportRefusal::RowPlaces => 4,
            ReportRefusal::DiagnosisPlaces => 5,
        }
    }
}
