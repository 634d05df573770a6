//! How many cases passed, were skipped, and failed.
ghost use Rattle.std.specs.Prelude.{◌≡◌, ◌≤◌, length, count_by};
ghost use Rattle.anb_attempts.specs.declared.attempts.TheConstants.{MOST};
ghost use Rattle.anb_probe_commands.specs.Reports.{is_failed, is_lax, is_passed, is_skipped, status_for};

use anb_command::Status;
use anb_verdict::Verdict;

/// Whether something was tried, and nothing is said against the program.
fn is_passed(verdict: Verdict) -> bool
    ensures { result ≡ is_passed verdict }
{
    verdict == Verdict::Good
}

/// Whether nothing could be tried, or seen.
fn is_skipped(verdict: Verdict) -> bool
    ensures { result ≡ is_skipped verdict }
{
    verdict.is_good() && !is_passed(verdict)
}

/// Whether the program went on where it must stop.
pub(crate) fn is_lax(verdict: Verdict) -> bool
    ensures { result ≡ is_lax verdict }
{
    match verdict {
        Verdict::LaxMessage { .. } | Verdict::LaxUnnarrated { .. } | Verdict::LaxEnd { .. } => true,
        Verdict::Good
        | Verdict::Skipped
        | Verdict::Unchanged
        | Verdict::NotSeen
        | Verdict::TooLong
        | Verdict::StrictMessage { .. }
        | Verdict::StrictUnseen { .. }
        | Verdict::StrictEnd { .. }
        | Verdict::Wrong { .. }
        | Verdict::Unnarrated
        | Verdict::Loose
        | Verdict::Signal(_)
        | Verdict::Silent
        | Verdict::Lost => false,
    }
}

/// How many passed.
pub(crate) fn passed(verdicts: &[Verdict]) -> u32
    requires { length verdicts.now ≤ MOST }
    ensures { result ≡ count_by is_passed verdicts.now }
{
    let mut count = 0;
    for verdict in verdicts {
        if is_passed(*verdict) {
            count += 1;
        }
    }
    count
}

/// How many were skipped.
pub(crate) fn skipped(verdicts: &[Verdict]) -> u32
    requires { length verdicts.now ≤ MOST }
    ensures { result ≡ count_by is_skipped verdicts.now }
{
    let mut count = 0;
    for verdict in verdicts {
        if is_skipped(*verdict) {
            count += 1;
        }
    }
    count
}

/// How many failed.
fn failed(verdicts: &[Verdict]) -> u32
    requires { length verdicts.now ≤ MOST }
    ensures { result ≡ count_by is_failed verdicts.now }
{
    let mut count = 0;
    for verdict in verdicts {
        if !verdict.is_good() {
            count += 1;
        }
    }
    count
}

/// The status of cases with these verdicts.
pub(crate) fn status_for(verdicts: &[Verdict]) -> Status
    requires { length verdicts.now ≤ MOST }
    ensures { result ≡ status_for verdicts.now }
{
    let failed = failed(verdicts);
    if failed == 0 {
        return Status::Done;
    }
    Status::CasesNotOk {
        failed,
        cases: verdicts.len() as u32,
    }
}
