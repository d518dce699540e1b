//! Which message of an application is taken.
//!
//! A `RowIndex` begins empty (`make`). It keeps the rows that attempts on a message would have, by the message's
//! recording and the catalogue (`set`), and tells them (`rows`), until the message is gone (`remove`). `choose` goes
//! through what waits in the order in which it is due, and takes the first message that no attempt holds and whose rows
//! no attempt holds.
//!
//! `specs/Index.antt` says what is kept, and `specs/Choice.antt` which message is taken. `laws` has what holds of an
//! index.
#![tactic(auto)]

mod attempt;
mod choice;
mod chosen;
mod index;
mod laws;
#[cfg(test)]
mod tests;

pub use choice::choose;
pub use chosen::Chosen;
pub use index::RowIndex;
pub use laws::what_is_set_is_told;
