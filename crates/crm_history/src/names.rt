// What lines say of attempts and of resources by their names.
ghost use Rattle.std.specs.Prelude.{◌≡◌, ◌==◌, ℕ, List};
ghost use Rattle.std.specs.Str.{bytes_eq};
ghost use Rattle.std.specs.List.{list_any};
ghost use Rattle.qc_base.specs.LogLines.{attempt_of_line, opened_by, is_opened, is_done, is_done_line, is_registered, is_unfinished};
ghost use Rattle.crm_history.specs.Legal.{has_phases, has_row};

use qc_base::{Amount, LogLine, Name, Text};
use qc_catalogue::Catalogue;

fn attempt_of(line: &LogLine) -> u64
    ensures { result ≡ attempt_of_line line.now }
{
    match line {
        LogLine::Opened(attempt, _)
        | LogLine::Registered(attempt, _, _)
        | LogLine::Written(attempt, _, _)
        | LogLine::Forgot(attempt, _, _)
        | LogLine::Done(attempt) => *attempt,
    }
}

// Whether a line is of this attempt.
pub(crate) fn is_named(lines: &[LogLine], attempt: u64) -> bool
    ensures { result ≡ list_any (λ line. attempt_of_line line == attempt) lines.now }
{
    lines.iter().any(|line| attempt_of(line) == attempt)
}

pub(crate) fn opened_by(line: &LogLine) -> Option<u64>
    ensures { result ≡ opened_by line.now }
{
    match line {
        LogLine::Opened(attempt, _) => Some(*attempt),
        _ => None,
    }
}

fn is_opened(lines: &[LogLine], attempt: u64) -> bool
    ensures { result ≡ is_opened lines.now attempt }
{
    lines.iter().filter_map(opened_by).any(|own| own == attempt)
}

fn is_done_line(line: &LogLine, attempt: u64) -> bool
    ensures { result ≡ is_done_line attempt line.now }
{
    match line {
        LogLine::Done(own) => *own == attempt,
        _ => false,
    }
}

pub(crate) fn is_done(lines: &[LogLine], attempt: u64) -> bool
    ensures { result ≡ is_done lines.now attempt }
{
    lines.iter().any(|line| is_done_line(line, attempt))
}

// Whether an attempt is opened and not done.
pub(crate) fn is_unfinished(lines: &[LogLine], attempt: u64) -> bool
    ensures { result ≡ is_unfinished lines.now attempt }
{
    is_opened(lines, attempt) && !is_done(lines, attempt)
}

// Whether the catalogue has the resource, with these phases.
pub(crate) fn has_phases(catalogue: &Catalogue, resource: &Name, phases: u8) -> bool
    ensures { result ≡ has_phases catalogue.now resource.now phases }
{
    match catalogue.resource(resource.as_bytes()) {
        Some(own) => own.phases == phases,
        None => false,
    }
}

fn has_key(rows: &[(Text, Amount)], key: &Text) -> bool
    ensures { result ≡ list_any (λ (row : List ℕ × ℕ). bytes_eq row.0 key.now) rows.now }
{
    rows.iter().any(|row| row.0.as_bytes() == key.as_bytes())
}

// Whether the catalogue has the resource, with a row of this key.
pub(crate) fn has_row(catalogue: &Catalogue, resource: &Name, key: &Text) -> bool
    ensures { result ≡ has_row catalogue.now resource.now key.now }
{
    match catalogue.resource(resource.as_bytes()) {
        Some(own) => has_key(own.rows.as_slice(), key),
        None => false,
    }
}
