//! Attempts: playing the calls of a message, one by one, up to how they end.
//!
//! An `Attempt` begins over a new `CallState` with its rows and room for its effects (`is_playable`, `effects_of`,
//! `Attempt::begin`). `run_next` runs its next call, and `run_left` all that are left. Once all
//! ran, or one failed, the resources that take part vote (`vote`), and `decide` tells whether it commits.
//!
//! `specs/Parts.antt` says what an attempt plays and the rows that it names, `specs/Outcome.antt` how it ends, and
//! `specs/Attempt.antt` what each call does. `laws` has what holds of each attempt.
#![tactic(auto)]

mod attempt;
mod laws;
mod parts;
mod running;
#[cfg(test)]
mod tests;

pub use attempt::Attempt;
pub use laws::an_attempt_ends_by_its_outcome;
pub use parts::{effects_of, is_playable};
