//! What the sixteen players hold, in memory.
//!
//! `Players` begin with nothing (`make`). A player that is free (`busy`) holds an attempt that has begun (`hold`),
//! whose message and rows no other player gets until it is let go (`held`, `release`). Where its stage allows it
//! (`unfit`) the attempt's next call is run (`work`), and its end decided (`decide`).
//!
//! Contracts see the list of the attempts in the slots, None in a free one. `specs/Players.antt` says what the machine
//! sees of it, and what holds of the attempts, and `specs/Orders.antt` what each call does.
#![tactic(auto)]

mod attempts;
mod order;
mod players;
#[cfg(test)]
mod tests;

pub use order::PlayerOrder;
pub use players::{Players, is_slot};
