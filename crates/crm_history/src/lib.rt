//! The log of compensations beside the history of its site: which lines may follow those before them, and how an
//! attempt ended.
//!
//! A log is read line by line. [`may_follow`] tells of each whether it may stand behind those before it
//! (docs/FORMATS.md, "Log lines"): a log that has a line that may not is damaged. What it asks of the
//! history is the catalogue in force, how many messages were sent, and which attempts ended, each as [`Ended`];
//! [`is_committed`] tells how one did.
//!
//! `specs/Legal.antt` has the rule. Nothing here takes memory.
#![tactic(auto)]

mod ended;
mod follow;
mod laws;
mod names;
mod records;
#[cfg(test)]
mod tests;

pub use ended::{Ended, is_committed};
pub use follow::may_follow;
pub use laws::a_log_is_legal_line_by_line;
