//! The log's part of a recovery: the log of compensations is read line by line beside the history of its site, and each
//! attempt that it leaves unfinished gets its phase again.
//!
//! The calls in their order:
//!
//! 1. [`read_lines`] reads a log that was just opened to its end. Each line may follow those before it by the history,
//!    or the log is damaged at that line's entry.
//! 2. [`finish_all`] gives each attempt that these lines open and don't call done its phase: the commit phase exactly
//!    where the attempt was committed, otherwise the abort phase, from its first unforgotten record on, with the flag
//!    true. Then its Done is forced, before the next attempt's phase. What was told to whom is the answer.
//!
//! The history comes in as the catalogue in force, how many messages were sent, and which attempts ended, each as an
//! `Ended` (of `crm_history`). Where a call failed the site is opened anew, and recovered again from the lines that
//! its log then spells: a phase that was cut short begins again at its first record, and an attempt whose Done is there
//! isn't told again.
//!
//! `specs/Settling.antt` says what is told, which rows are put and which lines are added; `specs/Reading.antt` where a
//! log is damaged; `specs/Calls.antt` what `finish_all` leaves of log and site; and `specs/Moments.antt` what a crash in
//! the midst of it leaves.
#![tactic(auto)]

mod error;
mod finish;
mod laws;
mod phase;
mod reading;
mod records;
mod telling;

pub use error::FinishError;
pub use finish::finish_all;
pub use laws::{
    a_legal_log_is_not_damaged, each_catalogue_can_be_finished, nothing_is_left_to_finish,
    where_all_is_done_nothing_is_put,
};
pub use reading::read_lines;
