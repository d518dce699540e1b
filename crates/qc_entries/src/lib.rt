//! Logs of values, which are read entry by entry. The log of compensations stands on this crate. The journal of facts,
//! a log of values too, doesn't yet: it reads and writes groups by itself.
//!
//! A value is spelled in bytes and is one entry of a group (docs/FORMATS.md, "Frame"). [`Spelled`] is a value that can
//! be written so, and [`EntryLog`] is a log that is read entry by entry and takes values in place of bytes. What a
//! value's bytes are, which groups are in form, and what is damage in one, is said by the crates above.
//! [`read_attempt`] reads a part that log lines have in common, and facts too.
//!
//! The calls in their order:
//!
//! 1. [`EntryLog::open`] looks at the header and stands before the first group.
//! 2. [`EntryLog::fill`] reads the next group where no entry is left of the last one, [`EntryLog::left`] lends the
//!    entries that are left, and [`EntryLog::pass`] goes on behind some of them.
//! 3. [`EntryLog::reserve`] takes memory for values, so that nothing after it does.
//! 4. [`EntryLog::stage`] adds a value to those that wait, and [`EntryLog::force`] makes them one group.
#![tactic(auto)]

mod entry_log;
mod parts;
mod spelled;

pub use entry_log::EntryLog;
pub use parts::read_attempt;
pub use spelled::Spelled;
