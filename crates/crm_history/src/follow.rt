// Which line may follow those before it.
ghost use Rattle.std.specs.Prelude.{◌≡◌, ◌==◌};
ghost use Rattle.crm_history.specs.Legal.{is_row_free, line_may_follow, next_seq};

use crate::ended::{Ended, are_about};
use crate::names::{has_phases, has_row, is_done, is_named, is_unfinished, opened_by};
use crate::records::{count_of, is_kept, is_registered, wrote_row};
use qc_base::{LogLine, LogRecord, Name, Text};
use qc_catalogue::Catalogue;

/// Whether a line may follow these lines, which are all before it, in the log of a site (docs/FORMATS.md, "Log lines").
/// The site's history has this catalogue in force, so many messages that were sent, with the ids from 1 on, and these
/// attempts that ended, by all its facts Played and Failed.
pub fn may_follow(
    lines: &[LogLine],
    line: &LogLine,
    catalogue: &Catalogue,
    sent: u64,
    ended: &[Ended],
) -> bool
    ensures { result ≡ line_may_follow catalogue.now sent ended.now lines.now line.now }
{
    match line {
        LogLine::Opened(attempt, id) => {
            !is_named(lines, *attempt) && 1 <= *id && *id <= sent && are_about(ended, *attempt, *id)
        }
        LogLine::Registered(attempt, resource, phases) => {
            is_unfinished(lines, *attempt)
                && !is_registered(lines, *attempt, resource)
                && has_phases(catalogue, resource, *phases)
        }
        LogLine::Written(attempt, resource, entry) => {
            is_unfinished(lines, *attempt)
                && is_registered(lines, *attempt, resource)
                && is_next(lines, *attempt, resource, entry)
                && has_row(catalogue, resource, &entry.key)
                && is_row_free(lines, resource, &entry.key, *attempt)
        }
        LogLine::Forgot(attempt, resource, seq) => {
            !is_done(lines, *attempt) && is_kept(lines, *attempt, resource, *seq)
        }
        LogLine::Done(attempt) => is_unfinished(lines, *attempt),
    }
}

// Whether a record has the number of the next one of its attempt and resource.
fn is_next(lines: &[LogLine], attempt: u64, resource: &Name, entry: &LogRecord) -> bool
    ensures { result ≡ entry.now.seq == next_seq lines.now attempt resource.now }
{
    u64::from(entry.seq) == (count_of(lines, attempt, resource) as u64).saturating_add(1)
}

// Whether no other attempt that is opened and not done has a record of the row.
fn is_row_free(lines: &[LogLine], resource: &Name, key: &Text, attempt: u64) -> bool
    ensures { result ≡ is_row_free lines.now resource.now key.now attempt }
{
    lines.iter().filter_map(opened_by).all(|other| {
        other == attempt || !(is_unfinished(lines, other) && wrote_row(lines, resource, key, other))
    })
}
