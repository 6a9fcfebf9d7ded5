//! Why a packet goes where it goes.
ghost use Rattle.std.specs.Prelude.{◌≡◌, ◌++◌, OnOk, option_map};
ghost use Rattle.explain_text.specs.Answers.{findings_text};

use crate::telling::add_line;
use cv_io::{Bytes, List, Memory};
use explain_text::{Finding, finding_line};
use install_plan::Written;
use policies::Policy;
use std::alloc::Global;

/// The entries that stand, if it is known which.
pub(crate) fn rows_of(standing: &Option<List<Written>>) -> Option<&[Written]>
    ensures { option_map (λ entries. entries.now) result ≡ standing.now }
{
    match standing {
        Some(rows) => Some(rows.as_slice()),
        None => None,
    }
}

/// Appends what was found of a packet, a line each.
pub(crate) fn say_findings(
    alloc: Global,
    policy: &Policy,
    bytes: &[u8],
    findings: &[Finding],
    report: &mut Bytes,
) -> Result<(), Memory>
    ensures { OnOk result (report.new ≡ report.old ++ findings_text policy.now bytes.now findings.now) }
{
    for finding in findings {
        let line = finding_line(alloc, policy, bytes, finding)?;
        add_line(report, line.as_bytes())?;
    }
    Ok(())
}
