use crate::{Ended, is_committed, may_follow};
use qc_base::{Amount, LogLine, LogRecord, Name, Text};
use qc_catalogue::{Catalogue, sample};
use std::alloc::Global;
use std::test::Fail;

// A line as a row of the table tells it: with its attempt, and the resource, the number and the key where it has them.
#[derive(Clone, Copy)]
enum Told {
    Opened(u64, u64),
    Registered(u64, &'static str, u8),
    Written(u64, &'static str, u32, &'static str),
    Forgot(u64, &'static str, u32),
    Done(u64),
}

// Four messages were sent. Attempts 2 and 3 have ended.
const SENT: u64 = 4;

const ENDED: [Ended; 2] = [
    Ended {
        attempt: 2,
        id: 4,
        committed: true,
    },
    Ended {
        attempt: 3,
        id: 1,
        committed: false,
    },
];

// Each line with whether it may follow those before it that may.
const LINES: &[(Told, bool)] = &[
    (Told::Registered(1, "till", 7), false),
    (Told::Done(1), false),
    (Told::Opened(1, 0), false),
    (Told::Opened(1, 5), false),
    (Told::Opened(1, 1), true),
    (Told::Opened(1, 1), false),
    (Told::Written(1, "till", 1, "drawer"), false),
    (Told::Registered(1, "till", 3), false),
    (Told::Registered(1, "stock", 7), false),
    (Told::Registered(1, "till", 7), true),
    (Told::Registered(1, "till", 7), false),
    (Told::Written(1, "till", 2, "drawer"), false),
    (Told::Written(1, "till", 1, "letters"), false),
    (Told::Written(1, "post", 1, "letters"), false),
    (Told::Written(1, "till", 1, "drawer"), true),
    (Told::Forgot(1, "till", 2), false),
    (Told::Forgot(1, "post", 1), false),
    (Told::Forgot(1, "till", 1), true),
    (Told::Forgot(1, "till", 1), false),
    // a number isn't given again
    (Told::Written(1, "till", 1, "drawer"), false),
    (Told::Written(1, "till", 2, "drawer"), true),
    // an attempt that has ended is of its message
    (Told::Opened(2, 3), false),
    (Told::Opened(2, 4), true),
    (Told::Registered(2, "till", 7), true),
    (Told::Registered(2, "post", 7), true),
    (Told::Written(2, "post", 1, "letters"), true),
    // attempt 1 has a record of the row, until it is done
    (Told::Written(2, "till", 1, "drawer"), false),
    (Told::Done(1), true),
    (Told::Written(2, "till", 1, "drawer"), true),
    (Told::Done(1), false),
    (Told::Forgot(1, "till", 2), false),
    (Told::Registered(1, "post", 7), false),
    (Told::Opened(1, 1), false),
    (Told::Done(2), true),
];

fn line_of(told: Told) -> Option<LogLine> {
    match told {
        Told::Opened(attempt, id) => Some(LogLine::Opened(attempt, id)),
        Told::Registered(attempt, resource, phases) => {
            let resource = Name::read(resource.as_bytes())?;
            Some(LogLine::Registered(attempt, resource, phases))
        }
        Told::Written(attempt, resource, seq, key) => {
            let resource = Name::read(resource.as_bytes())?;
            let entry = LogRecord {
                seq,
                flags: 0,
                key: Text::read(key.as_bytes())?,
                old: Amount::new(100)?,
                new: Amount::new(104)?,
            };
            Some(LogLine::Written(attempt, resource, entry))
        }
        Told::Forgot(attempt, resource, seq) => {
            let resource = Name::read(resource.as_bytes())?;
            Some(LogLine::Forgot(attempt, resource, seq))
        }
        Told::Done(attempt) => Some(LogLine::Done(attempt)),
    }
}

// The first row that isn't as it tells, or the number of rows. None is want of memory.
fn as_told(alloc: Global, catalogue: &Catalogue) -> Option<usize> {
    let mut lines = Vec::new(alloc);
    for index in 0..LINES.len() {
        let (told, follows) = LINES[index];
        let line = line_of(told)?;
        if may_follow(lines.as_slice(), &line, catalogue, SENT, &ENDED) != follows {
            return Some(index);
        }
        if follows {
            lines.push(line).ok()?;
        }
    }
    Some(LINES.len())
}

#[test]
fn lines_follow_one_another(rt: HostRuntime) -> Result<(), Fail> {
    let alloc = rt.alloc();
    let catalogue = Catalogue::read(alloc, sample().as_bytes()).map_err(|_| "refused")?;
    assert_eq!(rt; as_told(alloc, &catalogue), Some(LINES.len()));
    Ok(())
}

#[test]
fn an_attempt_ended_as_its_fact_says(rt: HostRuntime) -> Result<(), Fail> {
    for (attempt, committed) in [(1, false), (2, true), (3, false)] {
        assert_eq!(rt; is_committed(&ENDED, attempt), committed, "{attempt}");
    }
    Ok(())
}
