// How many messages of an application are consumed, as a store counts them.
use qc_base::Name;

#[derive(Debug, Drop)]
pub(crate) struct Tally {
    pub(crate) app: Name,
    pub(crate) consumed: u64,
}
