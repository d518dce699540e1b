// What is known of a line by the types of its parts.
ghost use Rattle.std.specs.Prelude.{◌≡◌, true};
ghost use Rattle.qc_base.specs.Spelling.{fits_four, is_id, is_line, is_record};
ghost use Rattle.crm_clerk.specs.Limits.{numbers_fit, record_numbers_fit};

use qc_base::{LogLine, LogRecord};

// A line is within its limits where its numbers are: names, texts and amounts always are.
pub(crate) fn within_limits(line: &LogLine)
    requires { numbers_fit line.now ≡ true }
    ensures { is_line line.now ≡ true }
{
    match line {
        LogLine::Opened(_, id) => id_within_limits(*id),
        LogLine::Registered(_, resource, _) => {
            let _ = resource.as_bytes();
        }
        LogLine::Written(_, resource, entry) => {
            let _ = resource.as_bytes();
            record_within_limits(entry);
        }
        LogLine::Forgot(_, resource, seq) => {
            let _ = resource.as_bytes();
            seq_within_limits(*seq);
        }
        LogLine::Done(_) => {}
    }
}

fn id_within_limits(id: u64)
    ensures { is_id id ≡ true }
{
    let _ = id;
}

fn seq_within_limits(seq: u32)
    ensures { fits_four seq ≡ true }
{
    let _ = seq;
}

fn record_within_limits(entry: &LogRecord)
    requires { record_numbers_fit entry.now ≡ true }
    ensures { is_record entry.now ≡ true }
{
    seq_within_limits(entry.seq);
    let _ = entry.key.as_bytes();
    let _ = entry.old.get();
    let _ = entry.new.get();
}
