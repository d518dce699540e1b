//! The outside in memory, for drills and tests.
//!
//! `MemSite` is a site whose images are all that the disk rules allow (docs/RULES.md, "Disk rules"): it keeps each call
//! that no sync has settled, and `crash_image` gives one of the images of this moment. All calls since it was made are
//! known to proofs alone. `MemSource`, `MemSink`, `MemLink`, `MemKeeper` and `MemDoor` are sources, sinks, connections,
//! keepers of rows and doors.
//!
//! Each always tells its content. A call fails exactly where the object's plan names it, past 2^62 bytes, or where it
//! finds no memory of its own, which it counts as `starved` too.
#![tactic(auto)]

mod account;
mod content;
#[cfg(test)]
mod fake_tests;
mod file;
mod history;
mod image;
mod keeper;
mod kept;
mod link;
mod memsite;
mod numbers;
mod plan;
mod row;
mod rows;
mod step;
mod streams;
#[cfg(test)]
mod tests;
mod threads;

pub use image::Choice;
pub use keeper::MemKeeper;
pub use link::{MemDoor, MemLink};
pub use memsite::MemSite;
pub use plan::{CallKind, Trip};
pub use streams::{MemSink, MemSource};
pub use threads::{FixedClock, MemSpawner};
