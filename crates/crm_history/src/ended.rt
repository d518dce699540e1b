// Attempts that ended, as the history tells of them.
ghost use Rattle.std.specs.Prelude.{◌≡◌};
ghost use Rattle.std.specs.List.{list_all};
ghost use Rattle.crm_history.specs.Legal.{is_about, is_committed};

/// An attempt that ended, by its fact Played or Failed: its number, the id of its message, and whether it was committed.
#[derive(Clone, Copy, Debug, PartialEq, Eq)]
pub struct Ended {
    pub attempt: u64,
    pub id: u64,
    pub committed: bool,
}

/// Whether an attempt ended in a commit, by those that ended.
pub fn is_committed(ended: &[Ended], attempt: u64) -> bool
    ensures { result ≡ is_committed attempt ended.now }
{
    ended
        .iter()
        .any(|own| own.attempt == attempt && own.committed)
}

// Whether an attempt is one of this message, as far as it has ended.
pub(crate) fn are_about(ended: &[Ended], attempt: u64, id: u64) -> bool
    ensures { result ≡ list_all (is_about attempt id) ended.now }
{
    ended
        .iter()
        .all(|own| own.attempt != attempt || own.id == id)
}
