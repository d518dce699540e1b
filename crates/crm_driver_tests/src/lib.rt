//! The driver of compensators over a site in memory, with a compensator whose rules are none of a resource's.
#![tactic(auto)]

mod listener;
#[cfg(test)]
mod tests;

pub use listener::Listener;
