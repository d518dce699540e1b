//! Lines of input as orders, and replies as text.
//!
//! A program reads its input line by line. It passes over what `is_blank` tells, hands each other line
//! to `read_order`, carries the order out, and writes what `print_reply` gives and a newline. Before
//! that it writes a line by `print_recovered` for each attempt that its opening has ended.
//!
//! A line is an object as `serde_json` reads it (docs/FORMATS.md, "Order lines"): `order_of` of
//! `specs/Orders.antt` says which order it is, or which member is at fault. It is a table with a row for
//! each order, and one rule that reads an object along a row.
//! Only the form of a line is looked at here. Whether a name is known, how many calls there are and
//! whether an argument fits its parameter is for whoever carries the order out.
//!
//! The text of a reply is `reply_text` of the crate `qc_protocol` (docs/FORMATS.md, "Reply lines").
#![tactic(auto)]

mod acts;
mod calls;
mod error;
mod listings;
mod members;
mod notices;
mod object;
mod orders;
mod refusals;
mod replies;
#[cfg(test)]
mod tests;
mod text;
mod worked;

pub use error::OrderError;
pub use orders::{is_blank, read_order};
pub use replies::{print_recovered, print_reply};
pub use worked::{a_moment_is_handed_in, each_order_is_read, the_member_at_fault_is_told};
