//! Worked drills in which players play messages: each outcome, the queues that a failure leads through, two players in
//! every order of what they do, each call of the site that fails, and ends that were changed by hand.
//!
//! The functions here are what the tests do, on the drills of `qc_drill_tests`.
#![tactic(auto)]

mod plain;

pub use plain::plain_site;

#[cfg(test)]
mod attempts;
#[cfg(test)]
mod changed;
#[cfg(test)]
mod fronts;
#[cfg(test)]
mod interleaved;
#[cfg(test)]
mod limited;
#[cfg(test)]
mod moves;
#[cfg(test)]
mod rows;
#[cfg(test)]
mod stopped;
