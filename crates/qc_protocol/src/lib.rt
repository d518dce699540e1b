//! What the service is asked and what it answers: orders as they are read from a line, the reply to each, every
//! refusal by its number, and the status by which a command ends. `specs/Texts` has the text of each reply and the
//! lines of a byte string (docs/FORMATS.md, "Order lines" and "Reply lines").
#![tactic(auto)]

mod order;
mod reply;
mod status;
#[cfg(test)]
mod tests;

pub use order::{Act, Member, Order, RawArg, RawArgs, RawCall, RawCalls};
pub use reply::{Refusal, Reply, ShownRow, ShownRows, Side};
pub use status::Status;
