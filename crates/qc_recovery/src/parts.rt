// What a recovery gives.
use crm_log::CrmLog;
use qc_base::Recovered;
use qc_history::History;
use qc_journal::Journal;

/// What a recovered site is in memory. Both logs stand on it at their ends, and nothing waits in them.
#[derive(Drop)]
pub struct Parts {
    pub journal: Journal,
    pub log: CrmLog,
    /// What the journal's facts have settled.
    pub history: History,
    /// The greatest number of an attempt in facts and lines, or 0.
    pub attempt: u64,
    /// What was told of the attempts that were unfinished, in rising number.
    pub recovered: Vec<Recovered>,
}
