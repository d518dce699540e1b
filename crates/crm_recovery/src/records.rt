// The records that a phase is told of.
ghost use Rattle.std.specs.Prelude.{◌≡◌, IfOk};
ghost use Rattle.std.specs.List.{list_any};
ghost use Rattle.qc_base.specs.LogLines.{forgets_entry, unforgotten};
ghost use Rattle.crm_recovery.specs.Tellings.{is_kept, kept_by};

use qc_base::{LogLine, LogRecord, Name, NoMemory};
use std::alloc::Global;

fn forgets(line: &LogLine, attempt: u64, resource: &Name, seq: u32) -> bool
    ensures { result ≡ forgets_entry attempt resource.now seq line.now }
{
    match line {
        LogLine::Forgot(own, name, number) => {
            *own == attempt && name.as_bytes() == resource.as_bytes() && *number == seq
        }
        _ => false,
    }
}

fn is_forgotten(lines: &[LogLine], attempt: u64, resource: &Name, seq: u32) -> bool
    ensures { result ≡ list_any (forgets_entry attempt resource.now seq) lines.now }
{
    lines
        .iter()
        .any(|line| forgets(line, attempt, resource, seq))
}

// Whether a record of these is one of an attempt and a resource, and isn't forgotten.
fn is_kept(
    lines: &[LogLine],
    attempt: u64,
    resource: &Name,
    own: u64,
    name: &Name,
    entry: &LogRecord,
) -> bool
    ensures { result ≡ is_kept lines.now attempt resource.now own name.now entry.now }
{
    own == attempt
        && name.as_bytes() == resource.as_bytes()
        && !is_forgotten(lines, attempt, name, entry.seq)
}

// The record that a line writes of an attempt and a resource, where none of the lines forgets it.
fn kept_by(lines: &[LogLine], attempt: u64, resource: &Name, line: &LogLine) -> Option<LogRecord>
    ensures { result ≡ kept_by lines.now attempt resource.now line.now }
{
    match line {
        LogLine::Written(own, name, entry) => {
            if is_kept(lines, attempt, resource, *own, name, entry) {
                Some(*entry)
            } else {
                None
            }
        }
        _ => None,
    }
}

/// The records of an attempt and a resource that aren't forgotten, in written order.
pub(crate) fn unforgotten(
    alloc: Global,
    lines: &[LogLine],
    attempt: u64,
    resource: &Name,
) -> Result<Vec<LogRecord>, NoMemory>
    ensures { IfOk result (λ records. records.items ≡ unforgotten lines.now attempt resource.now) }
{
    let mut records = Vec::new(alloc);
    for line in lines {
        if let Some(entry) = kept_by(lines, attempt, resource, line) {
            let Ok(()) = records.push(entry) else {
                return Err(NoMemory);
            };
        }
    }
    Ok(records)
}
