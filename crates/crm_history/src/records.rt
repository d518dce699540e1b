// What lines say of the records of attempts.
ghost use Rattle.std.specs.Prelude.{◌≡◌, ◌==◌, filter, length};
ghost use Rattle.std.specs.List.{list_any};
ghost use Rattle.qc_base.specs.LogLines.{entries, forgets_entry, is_registered, of_resource, unforgotten};
ghost use Rattle.qc_base.specs.declared.log_line.LogRecord.{LogRecord};
ghost use Rattle.crm_history.specs.Legal.{wrote_row};
ghost use Rattle.crm_history.specs.Lines.{registers, writes_key, writes_seq, writes_to};

use qc_base::{LogLine, Name, Text};

fn registers(line: &LogLine, attempt: u64, resource: &Name) -> bool
    ensures { result ≡ registers attempt resource.now line.now }
{
    match line {
        LogLine::Registered(own, name, _) => {
            *own == attempt && name.as_bytes() == resource.as_bytes()
        }
        _ => false,
    }
}

fn has_registration(lines: &[LogLine], attempt: u64, resource: &Name) -> bool
    ensures { result ≡ list_any (registers attempt resource.now) lines.now }
{
    lines.iter().any(|line| registers(line, attempt, resource))
}

// Whether an attempt has registered the resource.
pub(crate) fn is_registered(lines: &[LogLine], attempt: u64, resource: &Name) -> bool
    ensures { result ≡ is_registered lines.now attempt resource.now }
{
    has_registration(lines, attempt, resource)
}

fn writes_to(line: &LogLine, attempt: u64, resource: &Name) -> bool
    ensures { result ≡ writes_to attempt resource.now line.now }
{
    match line {
        LogLine::Written(own, name, _) => {
            *own == attempt && name.as_bytes() == resource.as_bytes()
        }
        _ => false,
    }
}

fn count_written(lines: &[LogLine], attempt: u64, resource: &Name) -> usize
    ensures { result ≡ length (filter (writes_to attempt resource.now) lines.now) }
{
    lines
        .iter()
        .filter(|line| writes_to(line, attempt, resource))
        .count()
}

// How many records of an attempt and a resource there are, forgotten or not.
pub(crate) fn count_of(lines: &[LogLine], attempt: u64, resource: &Name) -> usize
    ensures { result ≡ length (of_resource resource.now (entries lines.now attempt)) }
{
    count_written(lines, attempt, resource)
}

fn writes_key(line: &LogLine, attempt: u64, resource: &Name, key: &Text) -> bool
    ensures { result ≡ writes_key attempt resource.now key.now line.now }
{
    match line {
        LogLine::Written(own, name, entry) => {
            *own == attempt
                && name.as_bytes() == resource.as_bytes()
                && entry.key.as_bytes() == key.as_bytes()
        }
        _ => false,
    }
}

fn has_key(lines: &[LogLine], attempt: u64, resource: &Name, key: &Text) -> bool
    ensures { result ≡ list_any (writes_key attempt resource.now key.now) lines.now }
{
    lines
        .iter()
        .any(|line| writes_key(line, attempt, resource, key))
}

// Whether an attempt has a record of this row, forgotten or not.
pub(crate) fn wrote_row(lines: &[LogLine], resource: &Name, key: &Text, attempt: u64) -> bool
    ensures { result ≡ wrote_row lines.now resource.now key.now attempt }
{
    has_key(lines, attempt, resource, key)
}

fn writes_seq(line: &LogLine, attempt: u64, resource: &Name, seq: u32) -> bool
    ensures { result ≡ writes_seq attempt resource.now seq line.now }
{
    match line {
        LogLine::Written(own, name, entry) => {
            *own == attempt && name.as_bytes() == resource.as_bytes() && entry.seq == seq
        }
        _ => false,
    }
}

fn forgets(line: &LogLine, attempt: u64, resource: &Name, seq: u32) -> bool
    ensures { result ≡ forgets_entry attempt resource.now seq line.now }
{
    match line {
        LogLine::Forgot(own, name, number) => {
            *own == attempt && name.as_bytes() == resource.as_bytes() && *number == seq
        }
        _ => false,
    }
}

// Whether the record of this number is there, forgotten or not.
fn is_written(lines: &[LogLine], attempt: u64, resource: &Name, seq: u32) -> bool
    ensures { result ≡ list_any (writes_seq attempt resource.now seq) lines.now }
{
    lines
        .iter()
        .any(|line| writes_seq(line, attempt, resource, seq))
}

fn is_forgotten(lines: &[LogLine], attempt: u64, resource: &Name, seq: u32) -> bool
    ensures { result ≡ list_any (forgets_entry attempt resource.now seq) lines.now }
{
    lines
        .iter()
        .any(|line| forgets(line, attempt, resource, seq))
}

// Whether the record of this number is there, and isn't forgotten.
pub(crate) fn is_kept(lines: &[LogLine], attempt: u64, resource: &Name, seq: u32) -> bool
    ensures { result ≡ list_any (λ (r : LogRecord). r.seq == seq) (unforgotten lines.now attempt resource.now) }
{
    is_written(lines, attempt, resource, seq) && !is_forgotten(lines, attempt, resource, seq)
}
