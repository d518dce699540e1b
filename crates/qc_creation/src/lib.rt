//! A site is made from the text of a catalogue.
//!
//! [`is_made`] tells whether a site is made, and [`create`] makes one. The order in which files and rows are made keeps
//! any crash from leaving a site that is made and lacks something: first the log of compensations, then the outside rows
//! with their opening amounts, then the journal, and at last the fact that the catalogue is in force, which is forced. Up
//! to that fact the site isn't made, so it may be made anew after a crash or a fault (docs/RULES.md, "Creation").
//!
//! `specs/Sites.antt` says what a site is that is being made or was made, and `specs/Calls.antt` what the call leaves.
#![tactic(auto)]

mod creation;
mod error;
mod journal;
mod rows;

pub use creation::{create, is_made};
pub use error::CreateError;
