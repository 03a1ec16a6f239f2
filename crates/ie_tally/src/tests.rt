// Tallies of many reports.
use crate::positions::Positions;
use crate::severity::Severity;
use crate::skipped::Skipped;
use crate::tallies::{Tallies, tally_reports};
use crate::tally::Tally;

fn report(severity: Severity, position: usize, octets: u32) -> Tallies {
    Tallies {
        severity,
        taken: Positions::none().with(position),
        skipped: Skipped { ies: 1, octets },
    }
}

#[test]
fn many_reports(rt: HostRuntime) {
    let reports = [
        report(Severity::Clear, 0, 4294967290),
        report(Severity::Mandatory, 63, 5),
        report(Severity::Conditional, 64, 1),
    ];
    let all = tally_reports(&reports);
    assert_eq!(rt; all.severity.number(), 2);
    assert!(rt; all.taken.has(0) && all.taken.has(63) && !all.taken.has(1));
    assert_eq!(rt; all.skipped.ies, 3);
    assert_eq!(rt; all.skipped.octets, 4294967295);
    assert_eq!(rt; tally_reports(&reports[0..1]), reports[0]);
}
