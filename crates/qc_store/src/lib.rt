//! The messages of a history, in memory: which there are, where each stands, and the listings of the
//! queues.
//!
//! A `Store` begins empty (`make`). Each message that is sent is inserted under an id greater than all
//! before, once there is room for it (`reserve`, then `insert`). Failed attempts send it on (`fail`, by
//! `next_place`), a committed one consumes it (`consume`), and the mover takes it elsewhere
//! (`move_batch`). `list` tells all that the queues of an application hold, `queue_list` and `consumed` a
//! part of it; `next_due` goes through what waits there, in order.
#![tactic(auto)]

mod change;
mod count;
mod due;
mod listing;
mod place;
mod store;
mod tally;
#[cfg(test)]
mod tests;

pub use listing::Listing;
pub use place::next_place;
pub use store::Store;
