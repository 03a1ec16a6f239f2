// The diagnosis of a row, and how severe a diagnosis is.
ghost use Rattle.std.specs.Prelude.{◌≡◌};
ghost use Rattle.ie_walk.specs.Reading.{reads};
ghost use Rattle.ie_report.specs.Diagnosing.{in_frame, of_row, diagnosis_of, severity_of};

use crate::diagnosis::{Diagnosis, DiagnosisKind};
use crate::judge::format_of;
use crate::row::{Row, RowKind};
use ie_catalogue::catalogue::Catalogue;
use ie_catalogue::row::Format;
use ie_tally::severity::Severity;
use ie_walk::faults::Placed;
use ie_walk::reader::Reader;
use ie_walk::skip::{Frame, SkipRule};

// Whether the format is the frame.
fn in_frame(format: Option<Format>, frame: Frame) -> bool
    ensures { result ≡ in_frame format frame }
{
    matches!(
        (format, frame),
        (Some(Format::Tlv), Frame::Tlv) | (Some(Format::TlvE), Frame::TlvE)
    )
}

fn diagnosis_at(kind: DiagnosisKind, row: &Row) -> Placed<Diagnosis>
    ensures { result ≡ of_row kind row.now }
{
    Placed {
        thing: Diagnosis {
            kind,
            position: row.position,
            iei: row.iei,
        },
        place: row.place,
    }
}

// An IE out of sequence is diagnosed only where an unknown IE with its octet would be framed alike, and demanding.
pub(crate) fn diagnose<C: Catalogue, S: SkipRule>(
    reader: Reader<'_, C, S>,
    row: &Row,
) -> Option<Placed<Diagnosis>>
    ensures { result ≡ diagnosis_of (reads C.Catalogue S.SkipRule reader.entry) row.now }
{
    match row.kind {
        RowKind::Taken | RowKind::Surplus => None,
        RowKind::OutOfSequence => {
            let format = format_of(reader.catalogue.entry(row.position));
            let framed = in_frame(format, reader.rule.frame(row.iei));
            let demanding = framed && reader.rule.demanding(row.iei);
            demanding.then(|| diagnosis_at(DiagnosisKind::OutOfSequence, row))
        }
        RowKind::IllSized => Some(diagnosis_at(DiagnosisKind::IllSized, row)),
        RowKind::UnknownDemanding => Some(diagnosis_at(DiagnosisKind::UnknownDemanding, row)),
    }
}

pub(crate) fn severity<C: Catalogue>(catalogue: &C, diagnosis: &Diagnosis) -> Severity
    ensures { result ≡ severity_of (C.Catalogue.entries catalogue.now) diagnosis.now }
{
    match diagnosis.kind {
        DiagnosisKind::UnknownDemanding
        | DiagnosisKind::OutOfSequence
        | DiagnosisKind::MandatoryMissing => Severity::Mandatory,
        DiagnosisKind::ExpectedMissing | DiagnosisKind::ForbiddenPresent => Severity::Conditional,
        DiagnosisKind::IllSized => catalogue
            .entry(diagnosis.position)
            .map_or(Severity::Clear, |entry| Severity::from(entry.presence())),
    }
}
