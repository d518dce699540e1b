//! The site in a folder beside the site in memory: the same calls of both, at random, and what each costs.
//!
//! [`Planned`] stands between a site and its files: it counts the calls of the system, and lets those fail that its
//! plan names. [`Dice`] and [`play_one`] make the calls. Both are proved over any files and sites.
#![tactic(auto)]

mod dice;
mod planned;
mod play;
#[cfg(test)]
mod tests;

pub use dice::Dice;
pub use planned::{FileCall, Made, Mishap, Planned, Trip};
pub use play::{Difference, all_bytes, play_one};
