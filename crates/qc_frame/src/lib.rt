//! Logs of groups in a file of a site, each group there whole or not at all.
//!
//! A log file is a header of 16 bytes and then groups. A group is a gate byte, the length of its payload in four bytes
//! (the highest first), and the payload: a list of entries, each of them its length in four bytes and that many bytes.
//! Behind the last group stands the end gate, one byte. A gate counts as open exactly where it is 1, its length is 1 to
//! 33,554,432, and its length, its payload and one further byte lie inside the file; every other gate, and a missing
//! one, counts as closed and ends the log. Bytes behind the end gate are ignored (docs/FORMATS.md, "Frame").
//!
//! The calls in their order:
//!
//! 1. [`Log::make`] leaves an empty log in a file.
//! 2. [`Log::open`] looks at the header and stands before the first group.
//! 3. [`Log::next_group`] gives the groups in order. At the end it gives None, closes the end gate where that isn't 0,
//!    and from then on entries may be added. [`read_to_end`] gives all that are left.
//! 4. [`Log::reserve`] takes memory for entries, so that nothing after it does.
//! 5. [`Log::stage`] adds an entry to those that wait, and [`Log::force`] writes all of them as one group behind the
//!    closed end gate with a new one behind it, syncs, opens the gate by a write of one byte, and syncs. A crash at any
//!    moment leaves the group whole or not at all.
//!
//! After an error the log is opened again. [`force_and_read`] is the law that what is read is what was forced.
#![tactic(auto)]

mod entries;
mod error;
mod gate;
mod log;
mod reading;
mod runs;

pub use entries::{Entries, Entry};
pub use error::{Damage, LogError};
pub use log::{Group, Log};
pub use runs::{force_and_read, read_to_end};
