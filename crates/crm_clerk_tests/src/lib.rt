//! The clerk over a site in memory: what its calls answer, and what they leave in the log.
//!
//! The functions here are what the tests do. They are proved over each site.
#![tactic(auto)]

mod desk;

pub use desk::Desk;

#[cfg(test)]
mod tests;
