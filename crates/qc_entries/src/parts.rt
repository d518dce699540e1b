// Parts of values that facts and log lines share.
ghost use Rattle.qc_base.specs.Spelling.{Reads, is_attempt, eight_bytes};

use qc_base::Reader;

/// The number of an attempt, from 1 to 2^63 - 1, in eight bytes (docs/FORMATS.md, "Facts" and "Log lines").
pub fn read_attempt(reader: &mut Reader<'_>) -> Option<u64>
    ensures { Reads is_attempt eight_bytes reader.old reader.new result }
{
    let n = reader.read_u64()?;
    if n < 1 {
        return None;
    }
    if n > 9_223_372_036_854_775_807 {
        return None;
    }
    Some(n)
}
