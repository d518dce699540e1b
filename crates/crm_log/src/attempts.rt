// The attempts that a crash has left unfinished.
ghost use Rattle.std.specs.Prelude.{◌≡◌, IfOk};
ghost use Rattle.qc_base.specs.LogLines.{unfinished as unfinished_attempts};

use qc_base::{LogLine, NoMemory};
use std::alloc::Global;
use std::collections::BTreeSet;

/// The attempts that these lines open and don't call done, rising (docs/RULES.md, "Recovery").
pub fn unfinished(alloc: Global, lines: &[LogLine]) -> Result<Vec<u64>, NoMemory>
    ensures { IfOk result (λ attempts. attempts.items ≡ unfinished_attempts lines.now) }
{
    let mut open = BTreeSet::new(alloc);
    for line in lines {
        if let LogLine::Opened(attempt, _) = line {
            open.insert(*attempt).map_err(|_| NoMemory)?;
        }
    }
    for line in lines {
        if let LogLine::Done(attempt) = line {
            open.remove(attempt);
        }
    }
    let mut attempts = Vec::new(alloc);
    for attempt in open.iter() {
        attempts.push(*attempt).map_err(|_| NoMemory)?;
    }
    Ok(attempts)
}
