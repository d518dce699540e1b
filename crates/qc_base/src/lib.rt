//! The data that all crates share, and the definitions over it that contracts cite.
//!
//! - Words: `name` (names and texts), `number` (amounts and moments), `lists`.
//! - What is kept: `recording` (what a client asked for), `fact` (what happened to its message), `log_line` (what was
//!   changed outside), `message` (a message and where it stands), `queue` (messages as they are
//!   listed).
//! - Their bytes: `reader` and `writer` (numbers, names), `recording_reader`, `recording_writer` and `size`; the
//!   spelling of a recording is both ways here, that of a fact in `qc_journal`.
//! - `laws`: what holds of all spellings.
//!
//! Orders and replies are in `qc_protocol`.
#![tactic(auto)]

mod fact;
mod laws;
mod lists;
mod log_line;
mod message;
mod name;
mod number;
mod queue;
mod reader;
mod recording;
mod recording_reader;
mod recording_writer;
mod size;
#[cfg(test)]
mod tests;
mod writer;

pub use fact::{Fact, Kind, Place};
pub use laws::{no_spelling_begins_another, spellings_are_bounded};
pub use lists::{Ids, Word};
pub use log_line::{Heard, LogLine, LogRecord, Notice, Notices, Recovered, Stage, Why};
pub use message::Message;
pub use name::{Name, Text, is_app_name, is_name, is_text};
pub use number::{Amount, Moment, NoMemory};
pub use queue::{Queue, Queues, Waiting};
pub use reader::Reader;
pub use recording::{Arg, Args, Call, Calls, Recording, Row, Space};
pub use recording_reader::read_recording;
pub use recording_writer::{put_recording, write_recording};
pub use writer::{put_bytes, put_name, put_text, put_u16, put_u32, put_u64};
