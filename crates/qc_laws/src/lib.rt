//! What holds of an attempt, the log of compensations and the outside rows, from its first call to its phase.
//!
//! Nothing runs here: each function is a law, and its contract says it, over the definitions of `qc_machine`
//! (`Underway`, `Carrying`, `Preparing`). `specs/Logged.antt` has what the log and the rows have of an attempt.
#![tactic(auto)]

mod laws;

pub use laws::{
    a_phase_settles_the_rows_of_its_attempt, an_attempt_keeps_the_log_legal,
    effects_are_carried_out, votes_are_those_of_the_outcome,
};
