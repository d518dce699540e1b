//! A recorder: the calls of one activation, as they are gathered for a message.
//!
//! - `Recorder::begin`, then `add` call by call, then `pack` or `into_recording`. `record_calls` does the first two
//!   for a whole list of calls. What doesn't fit the catalogue, or is past a limit, is refused by number, call and
//!   place, and a refused call changes nothing.
//! - `unpack` reads the bytes that `pack` wrote.
//! - `fits` says whether a recording, wherever it comes from, fits a catalogue.
//! - `laws`: what is recorded fits, and is within the limits.
//!
//! The definitions are in `specs/`: `Fits` (which calls a component takes), `Recording` (what one call more makes of a
//! recording, or why it is refused) and `Answers`.
#![tactic(auto)]

mod arguments;
mod calls;
mod error;
mod fitting;
mod laws;
mod recorder;
#[cfg(test)]
mod tests;

pub use error::RecordError;
pub use fitting::fits;
pub use laws::{what_fits_is_taken_again, what_is_recorded_fits};
pub use recorder::{Recorder, record_calls, unpack};
