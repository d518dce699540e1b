// Log lines from bytes.
ghost use Rattle.std.specs.Prelude.{◌≡◌, ◌≢◌, ◌≤◌, ◌∷◌, length, take, true, IfOk, IfSome, IfNone, MatchOption};
ghost use Rattle.qc_base.specs.Spelling.{Reads, NoneBegins, SpellsLine, spelled_line, is_line, is_record, four_bytes};
ghost use Rattle.qc_base.specs.declared.log_line.LogLine.{LogLine};
ghost use Rattle.crm_log.specs.Parts.{is_seq, are_phases, are_flags, one_byte, spelled_record};

use qc_base::{LogLine, LogRecord, NoMemory, Reader};
use qc_entries::read_attempt;
use std::alloc::Global;

/// The line whose spelling the bytes begin with, and the length of that spelling in bytes (docs/FORMATS.md, "Log
/// lines"). None exactly where they begin with none.
pub fn read_line(alloc: Global, bytes: &[u8]) -> Result<Option<(LogLine, usize)>, NoMemory>
    ensures { IfOk result (λ found. MatchOption found (NoneBegins is_line spelled_line bytes.now)
        (λ p. (p.1 ≤ length bytes.now) × SpellsLine (take p.1 bytes.now) p.0)) }
{
    let _ = alloc;
    Ok(begun_line(bytes))
}

// The line that the bytes are, or None where they aren't exactly one spelling.
pub(crate) fn whole_line(bytes: &[u8]) -> Option<LogLine>
    ensures some { IfSome result (λ line. SpellsLine bytes.now line) }
    ensures none { IfNone result ((line : LogLine) → is_line line ≡ true → bytes.now ≢ spelled_line line) }
{
    let (line, size) = begun_line(bytes)?;
    if size == bytes.len() {
        Some(line)
    } else {
        None
    }
}

fn begun_line(bytes: &[u8]) -> Option<(LogLine, usize)>
    ensures { MatchOption result (NoneBegins is_line spelled_line bytes.now)
        (λ p. (p.1 ≤ length bytes.now) × SpellsLine (take p.1 bytes.now) p.0) }
{
    let mut reader = Reader::over(bytes);
    let line = line_from(&mut reader)?;
    Some((line, bytes.len() - reader.len()))
}

fn line_from(reader: &mut Reader<'_>) -> Option<LogLine>
    ensures { Reads is_line spelled_line reader.old reader.new result }
{
    match reader.read_byte()? {
        1 => opened_from(reader),
        2 => registered_from(reader),
        3 => written_from(reader),
        4 => forgot_from(reader),
        5 => done_from(reader),
        _ => None,
    }
}

fn opened_from(reader: &mut Reader<'_>) -> Option<LogLine>
    ensures { Reads is_line spelled_line (1 ∷ reader.old) reader.new result }
{
    let attempt = read_attempt(reader)?;
    let id = reader.read_u64()?;
    Some(LogLine::Opened(attempt, id))
}

fn registered_from(reader: &mut Reader<'_>) -> Option<LogLine>
    ensures { Reads is_line spelled_line (2 ∷ reader.old) reader.new result }
{
    let attempt = read_attempt(reader)?;
    let resource = reader.read_name()?;
    let phases = phases_from(reader)?;
    Some(LogLine::Registered(attempt, resource, phases))
}

fn written_from(reader: &mut Reader<'_>) -> Option<LogLine>
    ensures { Reads is_line spelled_line (3 ∷ reader.old) reader.new result }
{
    let attempt = read_attempt(reader)?;
    let resource = reader.read_name()?;
    let entry = record_from(reader)?;
    Some(LogLine::Written(attempt, resource, entry))
}

fn forgot_from(reader: &mut Reader<'_>) -> Option<LogLine>
    ensures { Reads is_line spelled_line (4 ∷ reader.old) reader.new result }
{
    let attempt = read_attempt(reader)?;
    let resource = reader.read_name()?;
    let seq = reader.read_u32()?;
    Some(LogLine::Forgot(attempt, resource, seq))
}

fn done_from(reader: &mut Reader<'_>) -> Option<LogLine>
    ensures { Reads is_line spelled_line (5 ∷ reader.old) reader.new result }
{
    let attempt = read_attempt(reader)?;
    Some(LogLine::Done(attempt))
}

fn record_from(reader: &mut Reader<'_>) -> Option<LogRecord>
    ensures { Reads is_record spelled_record reader.old reader.new result }
{
    let seq = seq_from(reader)?;
    let flags = flags_from(reader)?;
    let key = reader.read_text()?;
    let old = reader.read_amount()?;
    let new = reader.read_amount()?;
    Some(LogRecord {
        seq,
        flags,
        key,
        old,
        new,
    })
}

// The number of a record, from 1.
fn seq_from(reader: &mut Reader<'_>) -> Option<u32>
    ensures { Reads is_seq four_bytes reader.old reader.new result }
{
    let seq = reader.read_u32()?;
    if seq < 1 { None } else { Some(seq) }
}

fn flags_from(reader: &mut Reader<'_>) -> Option<u8>
    ensures { Reads are_flags one_byte reader.old reader.new result }
{
    let flags = reader.read_byte()?;
    if flags == 0 { Some(flags) } else { None }
}

// Phases, from 1 to 7.
fn phases_from(reader: &mut Reader<'_>) -> Option<u8>
    ensures { Reads are_phases one_byte reader.old reader.new result }
{
    let phases = reader.read_byte()?;
    if phases < 1 {
        return None;
    }
    if phases > 7 {
        return None;
    }
    Some(phases)
}
