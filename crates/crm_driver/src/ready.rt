// Whether the amounts of a resource's rows lie within its bounds.
ghost use Rattle.std.specs.Prelude.{◌≡◌};
ghost use Rattle.crm_driver.specs.Ready.{is_within, is_replaced, last_ones_within, is_ready_by};

use qc_base::{Amount, LogRecord};

fn is_within(bounds: &(Amount, Amount), rec: &LogRecord) -> bool
    ensures { result ≡ is_within bounds.now rec.now }
{
    let amount = rec.new.get();
    bounds.0.get() <= amount && amount <= bounds.1.get()
}

fn is_replaced(rec: &LogRecord, later: &[LogRecord]) -> bool
    ensures { result ≡ is_replaced rec.now later.now }
{
    later
        .iter()
        .any(|other| other.key.as_bytes() == rec.key.as_bytes())
}

// Whether the last record of each row lies within the bounds.
fn last_ones_within(bounds: &(Amount, Amount), records: &[LogRecord]) -> bool
    ensures { result ≡ last_ones_within bounds.now records.now }
{
    for place in 0..records.len() {
        let rec = &records[place];
        if !is_within(bounds, rec) && !is_replaced(rec, &records[place + 1..]) {
            return false;
        }
    }
    true
}

/// Whether there are no bounds, or the last record of each row lies within them.
pub(crate) fn is_ready(bounds: &Option<(Amount, Amount)>, records: &[LogRecord]) -> bool
    ensures { result ≡ is_ready_by bounds.now records.now }
{
    match bounds {
        Some(bounds) => last_ones_within(bounds, records),
        None => true,
    }
}
