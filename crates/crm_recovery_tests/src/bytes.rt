// The bytes of a log with these groups of lines, by docs/FORMATS.md, "Frame" and "Log lines".
use std::alloc::Global;

// A line as a table tells it: with its attempt, and the resource, the number, the key and the amounts where it has them.
#[derive(Clone, Copy)]
pub(crate) enum Told {
    Opened(u64, u64),
    Registered(u64, &'static str, u8),
    Written(u64, &'static str, u32, &'static str, u64, u64),
    Forgot(u64, &'static str, u32),
    Done(u64),
}

fn put_name(out: &mut Vec<u8>, name: &str) -> Option<()> {
    out.push(u8::try_from(name.len()).ok()?).ok()?;
    out.extend_from_slice(name.as_bytes()).ok()
}

fn put_tag(out: &mut Vec<u8>, tag: u8, attempt: u64) -> Option<()> {
    out.push(tag).ok()?;
    out.extend_from_slice(&attempt.to_be_bytes()).ok()
}

fn put_record(out: &mut Vec<u8>, seq: u32, key: &str, old: u64, new: u64) -> Option<()> {
    out.extend_from_slice(&seq.to_be_bytes()).ok()?;
    out.push(0).ok()?;
    put_name(out, key)?;
    out.extend_from_slice(&old.to_be_bytes()).ok()?;
    out.extend_from_slice(&new.to_be_bytes()).ok()
}

fn put_line(out: &mut Vec<u8>, line: &Told) -> Option<()> {
    match *line {
        Told::Opened(attempt, id) => {
            put_tag(out, 1, attempt)?;
            out.extend_from_slice(&id.to_be_bytes()).ok()
        }
        Told::Registered(attempt, resource, phases) => {
            put_tag(out, 2, attempt)?;
            put_name(out, resource)?;
            out.push(phases).ok()
        }
        Told::Written(attempt, resource, seq, key, old, new) => {
            put_tag(out, 3, attempt)?;
            put_name(out, resource)?;
            put_record(out, seq, key, old, new)
        }
        Told::Forgot(attempt, resource, seq) => {
            put_tag(out, 4, attempt)?;
            put_name(out, resource)?;
            out.extend_from_slice(&seq.to_be_bytes()).ok()
        }
        Told::Done(attempt) => put_tag(out, 5, attempt),
    }
}

// Each line with its length, one after another.
fn payload_of(alloc: Global, lines: &[Told]) -> Option<Vec<u8>> {
    let mut payload = Vec::new(alloc);
    for line in lines {
        let mut spelled = Vec::new(alloc);
        put_line(&mut spelled, line)?;
        let size = u32::try_from(spelled.len()).ok()?;
        payload.extend_from_slice(&size.to_be_bytes()).ok()?;
        payload.extend_from_slice(&spelled).ok()?;
    }
    Some(payload)
}

/// The bytes of the file: the header, these groups, and a closed gate.
pub(crate) fn log_of(alloc: Global, groups: &[&[Told]]) -> Option<Vec<u8>> {
    let mut file = b"QC-CRMLOG--0001\n".to_vec(alloc).ok()?;
    for lines in groups {
        let payload = payload_of(alloc, lines)?;
        let size = u32::try_from(payload.len()).ok()?;
        file.push(1).ok()?;
        file.extend_from_slice(&size.to_be_bytes()).ok()?;
        file.extend_from_slice(&payload).ok()?;
    }
    file.push(0).ok()?;
    Some(file)
}
