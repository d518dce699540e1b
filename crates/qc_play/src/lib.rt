//! Running the scripts of calls on a view of the rows.
//!
//! A `CallState` is made once for an attempt, over the rows that its scripts name, and `run_call` runs its calls on it,
//! one after another. A call that fails changes nothing. What a call did outside is told by `CallState::effects`, in
//! order; whoever runs it carries that out.
//!
//! `run_call` of `specs/Play.antt` says what a call does, step by step; `specs/Effects.antt` says what effects do to
//! the records and outside amounts of an attempt. `laws` has what holds of each call, and `worked` what some calls do.
#![tactic(auto)]

mod board;
mod change;
mod did;
mod effect;
mod laws;
mod record;
mod state;
#[cfg(test)]
mod tests;
mod worked;
mod worth;

pub use effect::Effect;
pub use laws::{a_call_changes_what_it_says, a_call_stays_in_its_limits};
pub use record::PlayRecord;
pub use state::{CallState, run_call};
pub use worked::{
    a_retract_takes_back, a_skipped_step_counts, a_test_sees_the_calls_before, abort_forces,
};
