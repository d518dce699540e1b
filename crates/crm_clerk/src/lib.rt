//! The clerk of the log of compensations: it writes the lines of one attempt, and knows what they say.
//!
//! An attempt opens with the registration of a compensator, writes a record of each outside change, and may forget a
//! record again (docs/RULES.md, "Work"). The clerk stages these lines in the log, whose next force makes them durable,
//! and keeps the records that aren't forgotten, so that the compensators can be told of them.
//!
//! The calls in their order:
//!
//! 1. [`Clerk::begin`] takes the memory for all that the attempt may do.
//! 2. [`Clerk::register`] registers the compensator of a resource; the first one of an attempt writes Opened.
//! 3. [`Clerk::write_record`] writes a record, and [`Clerk::forget_last`] and [`Clerk::forget`] forget one.
//! 4. [`Clerk::force_log`] makes the lines that wait one group of the log.
//! 5. [`Clerk::records`], [`Clerk::last`] and [`Clerk::registered`] tell what the lines say.
//! 6. [`Clerk::finish`] writes Done where Opened was written, and takes the clerk: no call follows.
//!
//! After `begin` no call takes memory: each has the condition that there is room in clerk and log. An error changes
//! nothing.
//!
//! `ClerkView` of `specs/Clerk.antt` is a clerk as its callers see it, and that file says which lines each call stages.
//! `Stages` of `specs/Calls.antt` says what a call leaves of clerk and log. What lines say of an attempt is defined in
//! `qc_base`.
#![tactic(auto)]

mod book;
mod clerk;
mod error;
mod limits;
mod lines;

pub use clerk::Clerk;
pub use error::ClerkError;
