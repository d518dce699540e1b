//! The worker: it carries out, through the log of compensations, what a call of an attempt does outside.
//!
//! [`carry_out`] does one effect (docs/RULES.md, "Work"). A resource is early or late. A change of an early one is
//! written as a record, the log is forced, and only then the row is put; a change of a late one is only written. A
//! retract writes Forgot, and where the resource is early its row has the old amount back before.
//!
//! Two laws say what is read of an image that a crash leaves in the midst of it:
//!
//! 1. [`a_row_is_put_where_its_record_is_read`]: in a change the rows are those that were, or the row has the new
//!    amount and the change's record is read back from the image's log.
//! 2. [`no_record_is_forgotten_before_its_row_is_back`]: in a retract the log is the one that was, and the rows are, or
//!    the row has the old amount back. Forgot waits when the retract ends, so no log has it before the next force.
//!
//! `specs/Effects.antt` says which lines an effect writes and which row it puts, `specs/Calls.antt` what a call leaves
//! of clerk, log and site, and `specs/Crashes.antt` what is read of an image. Which lines are written, what waits, and
//! why a call fails is said over any site; what rows, files and images have, of a site that tells its content.
#![tactic(auto)]

mod carrying;
mod laws;

pub use carrying::carry_out;
pub use laws::{
    a_row_is_put_where_its_record_is_read, no_record_is_forgotten_before_its_row_is_back,
};
