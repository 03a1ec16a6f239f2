// What is wrong with a message.
ghost use Rattle.std.specs.Prelude.{◌≡◌};
ghost use Rattle.ie_report.specs.Numbers.{diagnosis_number};

// The last three are of an entry, not of an IE that came.
#[derive(Clone, Copy, PartialEq, Eq, Debug)]
pub enum DiagnosisKind {
    UnknownDemanding = 1,
    OutOfSequence = 2,
    IllSized = 3,
    MandatoryMissing = 4,
    ExpectedMissing = 5,
    ForbiddenPresent = 6,
}

impl DiagnosisKind {
    pub fn number(self) -> u8
        ensures { result ≡ diagnosis_number self }
    {
        self as u8
    }
}

// A plain record of numbers, as a row is: `position` is 64 where no entry is designated; the IEI octet of a diagnosis
// of an entry is 0, and so is its place.
#[derive(Clone, Copy, PartialEq, Eq, Debug)]
pub struct Diagnosis {
    pub kind: DiagnosisKind,
    pub position: usize,
    pub iei: u8,
}
