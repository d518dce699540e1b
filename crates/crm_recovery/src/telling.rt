// What one resource is told in a phase.
use crm_driver::RowCompensator;
use qc_base::{LogRecord, Name};

// A resource's compensator, and the records that it is told of, in written order.
#[derive(Debug, Drop)]
pub(crate) struct Telling {
    pub(crate) name: Name,
    pub(crate) records: Vec<LogRecord>,
    pub(crate) compensator: RowCompensator,
}
