// Log lines to bytes.
ghost use Rattle.std.specs.Prelude.{◌≡◌, ◌≤◌, ◌+◌, ◌++◌, true, length, IfOk, vec_len, vec_capacity};
ghost use Rattle.qc_base.specs.Spelling.{spelled_line, is_line};
ghost use Rattle.crm_log.specs.Parts.{spelled_record};

use crate::line_size::size_of_line;
use qc_base::{LogLine, LogRecord, NoMemory, put_name, put_text, put_u32, put_u64};
use qc_entries::Spelled;
use std::alloc::Global;

/// The spelling of a line (docs/FORMATS.md, "Log lines"). The line is within the limits of that section.
pub fn write_line(alloc: Global, line: &LogLine) -> Result<Vec<u8>, NoMemory>
    requires { is_line line.now ≡ true }
    ensures { IfOk result (λ v. v.items ≡ spelled_line line.now) }
{
    let mut bytes = Vec::with_capacity(alloc, size_of_line(line)).map_err(|_| NoMemory)?;
    put_line(&mut bytes, line);
    Ok(bytes)
}

/// A line as it is staged.
#[derive(Clone, Copy)]
pub(crate) struct Staged<'a>(pub(crate) &'a LogLine);

impl Spelled for Staged<'_> {
    ghost use Rattle.qc_base.specs.Spelling.{spelled_line, is_line};

    ghost within = { λ a. is_line a.0.now };

    ghost spelled = { λ a. spelled_line a.0.now };

    fn put(&self, out: &mut Vec<u8>) {
        put_line(out, self.0)
    }
}

// Appends the spelling of a line within the limits. There is room for it, so this takes no memory.
#[tactic(auto, using(crate::proofs::Lengths::line_lengths))]
fn put_line(out: &mut Vec<u8>, line: &LogLine)
    requires limits { is_line line.now ≡ true }
    requires room { vec_len out.old + length (spelled_line line.now) ≤ vec_capacity out.old }
    ensures bytes { out.new.items ≡ out.old.items ++ spelled_line line.now }
    ensures room { vec_capacity out.old ≤ vec_capacity out.new }
{
    match line {
        LogLine::Opened(attempt, id) => {
            out.push_reserved(1);
            put_u64(out, *attempt);
            put_u64(out, *id);
        }
        LogLine::Registered(attempt, resource, phases) => {
            out.push_reserved(2);
            put_u64(out, *attempt);
            put_name(out, resource);
            out.push_reserved(*phases);
        }
        LogLine::Written(attempt, resource, entry) => {
            out.push_reserved(3);
            put_u64(out, *attempt);
            put_name(out, resource);
            put_record(out, entry);
        }
        LogLine::Forgot(attempt, resource, seq) => {
            out.push_reserved(4);
            put_u64(out, *attempt);
            put_name(out, resource);
            put_u32(out, *seq);
        }
        LogLine::Done(attempt) => {
            out.push_reserved(5);
            put_u64(out, *attempt);
        }
    }
}

#[tactic(auto, using(crate::proofs::Lengths::line_lengths))]
fn put_record(out: &mut Vec<u8>, entry: &LogRecord)
    requires { vec_len out.old + length (spelled_record entry.now) ≤ vec_capacity out.old }
    ensures bytes { out.new.items ≡ out.old.items ++ spelled_record entry.now }
    ensures room { vec_capacity out.old ≤ vec_capacity out.new }
{
    put_u32(out, entry.seq);
    out.push_reserved(entry.flags);
    put_text(out, &entry.key);
    put_u64(out, entry.old.get());
    put_u64(out, entry.new.get());
}
