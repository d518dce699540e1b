//! A site is opened whole: its history is read, its log of compensations beside it, and the attempts that a crash left
//! unfinished are finished.
//!
//! [`recover`] syncs both logs and looks at their headers before it reads a group of either. The journal is read to its
//! end, each fact handed to `History::take` (of `qc_history`), which tells whether it may follow those before it. Then
//! the log of compensations is read line by line beside that history (`crm_recovery::read_lines`), and each attempt
//! that its lines leave unfinished gets its phase and its line Done (`crm_recovery::finish_all`). What is in memory
//! then are the [`Parts`] of a service over that site.
//!
//! `specs/Stands.antt` says which history a site stands for and what a recovered site is, `specs/Calls.antt` what
//! `recover` leaves, at any moment and at its end, and `specs/Opening.antt` how far its reading has come.
#![tactic(auto)]

mod errors;
mod laws;
mod numbers;
mod parts;
mod reading;
mod recovery;

pub use laws::{a_recovery_keeps_the_history, a_site_that_stands_is_not_refused};
pub use parts::Parts;
pub use recovery::recover;
