//! The log of compensations: what attempts do outside, line by line, so that a crash leaves nothing half done unknown.
//!
//! A line is spelled as a tag of one byte and its parts, numbers with the highest byte first. Each line within its
//! limits has one spelling, and no spelling begins another (docs/FORMATS.md, "Log lines"). The file is a log by
//! docs/FORMATS.md, "Frame", with the header `QC-CRMLOG--0001` and byte 10; a group has one line or more.
//!
//! The calls in their order:
//!
//! 1. [`CrmLog::make`] leaves a log without lines.
//! 2. [`CrmLog::open`] looks at the header and stands before the first line.
//! 3. [`CrmLog::next_line`] gives the lines in order, each with the offset of its entry. At the end it gives None,
//!    closes the end gate where that isn't 0, and from then on lines may be added. [`unfinished`] tells which attempts
//!    they leave unfinished.
//! 4. [`CrmLog::reserve`] takes memory for lines, so that nothing after it does. [`size_of_line`] tells how much one
//!    takes; four bytes come on top.
//! 5. [`CrmLog::stage_line`] adds a line to those that wait, and [`CrmLog::force`] makes all that wait one group. A
//!    crash at any moment leaves the group whole or not at all, and from `Ok` on each later crash has it.
//!
//! [`write_line`] and [`read_line`] are the codec alone. After an error the log is opened again.
//!
//! Which lines a file spells is said by `SpellsLog` of `specs/Log.antt`. [`lines_are_read_as_they_are_spelled`] and
//! [`a_group_of_lines_is_added_whole`] are what holds of such files.
#![tactic(auto)]

mod attempts;
mod laws;
mod line_reader;
mod line_size;
mod line_writer;
mod log;

pub use attempts::unfinished;
pub use laws::{a_group_of_lines_is_added_whole, lines_are_read_as_they_are_spelled};
pub use line_reader::read_line;
pub use line_size::size_of_line;
pub use line_writer::write_line;
pub use log::CrmLog;
