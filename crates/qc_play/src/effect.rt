// What a call does outside.
use qc_base::{Amount, Name, Text};

/// What a call did outside (docs/RULES.md, "Work").
#[derive(Clone, Copy, Debug, PartialEq, Eq)]
pub enum Effect {
    /// A row's amount was changed, perhaps to the same one.
    Change {
        resource: Name,
        key: Text,
        old: Amount,
        new: Amount,
    },
    /// The last change of a resource that the attempt made was taken back.
    Retract {
        resource: Name,
    },
}
