// Attempts in facts and lines.
ghost use Rattle.std.specs.Prelude.{◌≡◌, map, max};
ghost use Rattle.qc_base.specs.LogLines.{attempt_of_line};
ghost use Rattle.qc_machine.specs.Attempts.{greatest};
ghost use Rattle.qc_machine.specs.Sound.{ended_by};

use crm_history::Ended;
use qc_base::{Fact, LogLine};

// The attempt that a fact ends, committed or not.
pub(crate) fn ended_by(fact: &Fact) -> Option<Ended>
    ensures { result ≡ ended_by fact.now }
{
    match fact {
        Fact::Played(id, attempt, _, _) => Some(Ended {
            attempt: *attempt,
            id: *id,
            committed: true,
        }),
        Fact::Failed(id, attempt, _) => Some(Ended {
            attempt: *attempt,
            id: *id,
            committed: false,
        }),
        _ => None,
    }
}

fn attempt_of(line: &LogLine) -> u64
    ensures { result ≡ attempt_of_line line.now }
{
    match line {
        LogLine::Opened(attempt, _)
        | LogLine::Registered(attempt, _, _)
        | LogLine::Written(attempt, _, _)
        | LogLine::Forgot(attempt, _, _)
        | LogLine::Done(attempt) => *attempt,
    }
}

// The greatest number of an attempt in these lines, or this one where it is greater.
pub(crate) fn greatest_in(lines: &[LogLine], least: u64) -> u64
    ensures { result ≡ max least (greatest (map attempt_of_line lines.now)) }
{
    let mut greatest = least;
    for line in lines {
        greatest = greatest.max(attempt_of(line));
    }
    greatest
}
