// Recordings from bytes.
ghost use Rattle.std.specs.Prelude.{◌≡◌, ◌≤◌, take, length, IfOk, MatchOption};
ghost use Rattle.qc_base.specs.Spelling.{Reads, NoneBegins, SpellsRecording, spelled_arg, spelled_args, spelled_call, spelled_calls, spelled_recording, is_arg, are_args, is_call, are_calls, is_recorded, is_recording};

use crate::number::NoMemory;
use crate::reader::Reader;
use crate::recording::{Arg, Args, Call, Calls, Recording};
use std::alloc::Global;

/// The recording whose spelling the bytes begin with, and the length of that spelling in bytes
/// (docs/FORMATS.md, "Recording"). None exactly where they begin with none.
pub fn read_recording(alloc: Global, bytes: &[u8]) -> Result<Option<(Recording, usize)>, NoMemory>
    ensures { IfOk result (λ found. MatchOption found (NoneBegins is_recording spelled_recording bytes.now) (λ p. (p.1 ≤ length bytes.now) × SpellsRecording (take p.1 bytes.now) p.0)) }
{
    let mut reader = Reader::over(bytes);
    let Some(recording) = read_recorded(alloc, &mut reader)? else {
        return Ok(None);
    };
    let size = bytes.len() - reader.len();
    if size > 16384 {
        return Ok(None);
    }
    Ok(Some((recording, size)))
}

// A recording whatever the length of its spelling.
fn read_recorded(alloc: Global, reader: &mut Reader<'_>) -> Result<Option<Recording>, NoMemory>
    ensures { IfOk result (λ found. Reads is_recorded spelled_recording reader.old reader.new found) }
{
    let Some(app) = reader.read_name() else {
        return Ok(None);
    };
    let Some(component) = reader.read_name() else {
        return Ok(None);
    };
    let Some(calls) = read_calls(alloc, reader)? else {
        return Ok(None);
    };
    Ok(Some(Recording {
        app,
        component,
        calls,
    }))
}

fn read_calls(alloc: Global, reader: &mut Reader<'_>) -> Result<Option<Calls>, NoMemory>
    ensures { IfOk result (λ found. Reads are_calls spelled_calls reader.old reader.new found) }
{
    let Some(count) = reader.read_byte() else {
        return Ok(None);
    };
    if count < 1 || 64 < count {
        return Ok(None);
    }
    let mut calls = Vec::with_capacity(alloc, usize::from(count)).map_err(|_| NoMemory)?;
    for _ in 0..count {
        let Some(call) = read_call(alloc, reader)? else {
            return Ok(None);
        };
        calls.push(call).map_err(|_| NoMemory)?;
    }
    Ok(Some(Calls::over(calls)))
}

fn read_call(alloc: Global, reader: &mut Reader<'_>) -> Result<Option<Call>, NoMemory>
    ensures { IfOk result (λ found. Reads is_call spelled_call reader.old reader.new found) }
{
    let Some(method) = reader.read_name() else {
        return Ok(None);
    };
    let Some(args) = read_args(alloc, reader)? else {
        return Ok(None);
    };
    Ok(Some(Call { method, args }))
}

fn read_args(alloc: Global, reader: &mut Reader<'_>) -> Result<Option<Args>, NoMemory>
    ensures { IfOk result (λ found. Reads are_args spelled_args reader.old reader.new found) }
{
    let Some(count) = reader.read_byte() else {
        return Ok(None);
    };
    if 16 < count {
        return Ok(None);
    }
    let mut args = Vec::with_capacity(alloc, usize::from(count)).map_err(|_| NoMemory)?;
    for _ in 0..count {
        let Some(arg) = read_arg(reader) else {
            return Ok(None);
        };
        args.push(arg).map_err(|_| NoMemory)?;
    }
    Ok(Some(Args::over(args)))
}

fn read_arg(reader: &mut Reader<'_>) -> Option<Arg>
    ensures { Reads is_arg spelled_arg reader.old reader.new result }
{
    match reader.read_byte()? {
        1 => Some(Arg::Text(reader.read_text()?)),
        2 => Some(Arg::Whole(reader.read_amount()?)),
        _ => None,
    }
}
