//! What the facts of a journal have settled, in memory and without a site.
//!
//! A `History` begins with no facts (`make`). To open a site, each fact that was read is handed in (`take`), which
//! tells whether it may follow those before it: an attempt's end is played again, with the votes of the resources that
//! it changed. From then on each fact is added in two parts. Before the fact is forced, memory is taken for it
//! (`reserve`, `reserve_sent`, `reserve_switch`; a move needs none); behind it the fact is settled without memory
//! (`end`, `sent`, `switch`, `move_batch`). `begin` begins an attempt on a message over the settled amounts.
//!
//! `specs/Stands.antt` says what is kept of a history of the machine, `specs/Taking.antt` what `take` tells, and
//! `specs/Adding.antt` what the others do.
#![tactic(auto)]

mod attempts;
mod classes;
mod ending;
mod facts;
mod history;
mod moving;
mod places;
mod sending;
mod switches;
mod switching;
#[cfg(test)]
mod tests;
mod votes;

pub use history::History;
