//! Attempts under way over a site in memory: what their calls leave in the log and in the rows, and what each image has
//! where the site stops.
//!
//! The functions here are what the tests do. They are proved over each site.
#![tactic(auto)]

mod bench;
mod closing;

pub use bench::{Answer, Bench};
pub use closing::Ended;

#[cfg(test)]
mod closing_tests;
#[cfg(test)]
mod tests;
