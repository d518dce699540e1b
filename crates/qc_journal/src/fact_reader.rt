// Facts from bytes.
ghost use Rattle.std.specs.Prelude.{◌≡◌, ◌≤◌, ◌∷◌, [], length, take, IfOk, MatchOption, option_copied};
ghost use Rattle.qc_base.specs.Spelling.{Reads, NoneBegins, SpellsFact, spelled_fact, is_fact, is_recording};
ghost use Rattle.qc_journal.specs.Parts.{is_any, is_queue, one_byte, spelled_kind, spelled_flag, is_text_of, spelled_text, spelled_sized, are_ids, spelled_ids};

use qc_base::{Fact, Ids, Kind, NoMemory, Reader, Recording, Word, read_recording};
use qc_entries::read_attempt;
use std::alloc::Global;

/// The fact whose spelling the bytes begin with, and the length of that spelling in bytes (docs/FORMATS.md, "Facts").
/// None exactly where they begin with none.
pub fn read_fact(alloc: Global, bytes: &[u8]) -> Result<Option<(Fact, usize)>, NoMemory>
    ensures { IfOk result (λ found. MatchOption found (NoneBegins is_fact spelled_fact bytes.now) (λ p. (p.1 ≤ length bytes.now) × SpellsFact (take p.1 bytes.now) p.0)) }
{
    let mut reader = Reader::over(bytes);
    let Some(fact) = fact_from(alloc, &mut reader)? else {
        return Ok(None);
    };
    Ok(Some((fact, bytes.len() - reader.len())))
}

fn fact_from(alloc: Global, reader: &mut Reader<'_>) -> Result<Option<Fact>, NoMemory>
    ensures { IfOk result (λ found. Reads is_fact spelled_fact reader.old reader.new found) }
{
    match reader.read_byte() {
        Some(1) => catalogue_from(alloc, reader),
        Some(2) => sent_from(alloc, reader),
        Some(3) => Ok(played_from(reader)),
        Some(4) => Ok(failed_from(reader)),
        Some(5) => moved_from(alloc, reader),
        Some(6) => Ok(switched_from(reader)),
        _ => Ok(None),
    }
}

fn catalogue_from(alloc: Global, reader: &mut Reader<'_>) -> Result<Option<Fact>, NoMemory>
    ensures { IfOk result (λ found. Reads is_fact spelled_fact (1 ∷ reader.old) reader.new found) }
{
    let Some(text) = text_from(reader) else {
        return Ok(None);
    };
    let text = text.to_vec(alloc).map_err(|_| NoMemory)?;
    Ok(Some(Fact::Catalogue(Word::over(text))))
}

fn sent_from(alloc: Global, reader: &mut Reader<'_>) -> Result<Option<Fact>, NoMemory>
    ensures { IfOk result (λ found. Reads is_fact spelled_fact (2 ∷ reader.old) reader.new found) }
{
    let Some(id) = reader.read_u64() else {
        return Ok(None);
    };
    let Some(at) = reader.read_moment() else {
        return Ok(None);
    };
    let Some(recording) = recording_from(alloc, reader)? else {
        return Ok(None);
    };
    Ok(Some(Fact::Sent(id, at, recording)))
}

fn played_from(reader: &mut Reader<'_>) -> Option<Fact>
    ensures { Reads is_fact spelled_fact (3 ∷ reader.old) reader.new result }
{
    let id = reader.read_u64()?;
    let attempt = read_attempt(reader)?;
    let kind = kind_from(reader)?;
    let at = reader.read_moment()?;
    Some(Fact::Played(id, attempt, kind, at))
}

fn failed_from(reader: &mut Reader<'_>) -> Option<Fact>
    ensures { Reads is_fact spelled_fact (4 ∷ reader.old) reader.new result }
{
    let id = reader.read_u64()?;
    let attempt = read_attempt(reader)?;
    let at = reader.read_moment()?;
    Some(Fact::Failed(id, attempt, at))
}

fn moved_from(alloc: Global, reader: &mut Reader<'_>) -> Result<Option<Fact>, NoMemory>
    ensures { IfOk result (λ found. Reads is_fact spelled_fact (5 ∷ reader.old) reader.new found) }
{
    let Some(app) = reader.read_name() else {
        return Ok(None);
    };
    let Some(queue) = queue_from(reader) else {
        return Ok(None);
    };
    let Some(at) = reader.read_moment() else {
        return Ok(None);
    };
    let Some(ids) = ids_from(alloc, reader)? else {
        return Ok(None);
    };
    Ok(Some(Fact::Moved(app, queue, at, ids)))
}

fn switched_from(reader: &mut Reader<'_>) -> Option<Fact>
    ensures { Reads is_fact spelled_fact (6 ∷ reader.old) reader.new result }
{
    let app = reader.read_name()?;
    let on = flag_from(reader)?;
    let at = reader.read_moment()?;
    Some(Fact::Switched(app, on, at))
}

fn kind_from(reader: &mut Reader<'_>) -> Option<Kind>
    ensures { Reads is_any spelled_kind reader.old reader.new result }
{
    match reader.read_byte()? {
        1 => Some(Kind::Normal),
        2 => Some(Kind::Final),
        _ => None,
    }
}

fn flag_from(reader: &mut Reader<'_>) -> Option<bool>
    ensures { Reads is_any spelled_flag reader.old reader.new result }
{
    match reader.read_byte()? {
        0 => Some(false),
        1 => Some(true),
        _ => None,
    }
}

fn queue_from(reader: &mut Reader<'_>) -> Option<u8>
    ensures { Reads is_queue one_byte reader.old reader.new result }
{
    let queue = reader.read_byte()?;
    if queue <= 6 { Some(queue) } else { None }
}

// The text of a catalogue behind its length.
fn text_from<'a>(reader: &mut Reader<'a>) -> Option<&'a [u8]>
    ensures { Reads is_text_of spelled_text reader.old reader.new (option_copied result) }
{
    let size = reader.read_u32()?;
    if size > 1_048_576 {
        return None;
    }
    let text = reader.read_bytes(size as usize)?;
    Some(text)
}

// A recording behind the length of its spelling.
fn recording_from(alloc: Global, reader: &mut Reader<'_>) -> Result<Option<Recording>, NoMemory>
    ensures { IfOk result (λ found. Reads is_recording spelled_sized reader.old reader.new found) }
{
    let Some(size) = reader.read_u16() else {
        return Ok(None);
    };
    let Some(bytes) = reader.read_bytes(size as usize) else {
        return Ok(None);
    };
    let Some((recording, read)) = read_recording(alloc, bytes)? else {
        return Ok(None);
    };
    if read != bytes.len() {
        return Ok(None);
    }
    Ok(Some(recording))
}

// 1 to 1,000 ids behind their count.
fn ids_from(alloc: Global, reader: &mut Reader<'_>) -> Result<Option<Ids>, NoMemory>
    ensures { IfOk result (λ found. Reads are_ids spelled_ids reader.old reader.new found) }
{
    let Some(count) = reader.read_u16() else {
        return Ok(None);
    };
    if count < 1 {
        return Ok(None);
    }
    if count > 1000 {
        return Ok(None);
    }
    let mut ids = Vec::new(alloc);
    for _ in 0..count {
        let Some(id) = reader.read_u64() else {
            return Ok(None);
        };
        ids.push(id).map_err(|_| NoMemory)?;
    }
    Ok(Some(Ids::over(ids)))
}
