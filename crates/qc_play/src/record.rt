// The outside changes of an attempt.
use qc_base::{LogRecord, Name};

/// An outside change that an attempt made, and whether it was taken back.
#[derive(Clone, Copy, Debug, PartialEq, Eq)]
pub struct PlayRecord {
    pub resource: Name,
    pub entry: LogRecord,
    pub forgotten: bool,
}
