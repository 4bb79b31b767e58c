//! Findings, printed as they come.

ghost use Rattle.std.specs.Prelude.{◌∷◌, ◌<◌, ◌^◌, [], length};
ghost use Rattle.pp_races.specs.Findings.{sharing_of};
ghost use Rattle.pp_races.specs.Printing.{PrintsFindings};
ghost use Rattle.pp_races.specs.Tables.{AreUses};
ghost use Rattle.pp_races.specs.Watch.{Watch, each_below};

use crate::lines::print_finding_line;
use crate::sharing::sharing;
use crate::word_use::WordUse;
use crate::{Finding, Verdict};
use pp_text::TextWriter;
use std::io::Write;

/// Prints the line of a finding, and answers what it comes to with those before it.
fn print_finding<W: Write>(text: &mut TextWriter<W>, verdict: Verdict, finding: &Finding) -> Verdict
    ensures { PrintsFindings W.contents text.old text.new verdict result (finding.now ∷ []) }
{
    print_finding_line(text, finding);
    verdict.with(finding)
}

/// Prints the lines of findings.
pub(crate) fn print_findings<W: Write>(
    text: &mut TextWriter<W>,
    verdict: Verdict,
    findings: &[Finding],
) -> Verdict
    ensures { PrintsFindings W.contents text.old text.new verdict result findings.now }
{
    let mut after = verdict;
    for finding in findings {
        after = print_finding(text, after, finding);
    }
    after
}

/// Prints the lines of the central words that are shared.
pub(crate) fn print_shared<W: Write>(
    text: &mut TextWriter<W>,
    verdict: Verdict,
    uses: &[WordUse],
) -> Verdict
    requires { length uses.now < 2 ^ 32 }
    ensures { (w : Watch) → AreUses w uses.now → PrintsFindings W.contents text.old text.new verdict
        result (each_below (length uses.now) (sharing_of w)) }
{
    let mut after = verdict;
    for place in 0..uses.len() {
        if let Some(finding) = sharing(place as u32, uses[place]) {
            after = print_finding(text, after, &finding);
        }
    }
    after
}
