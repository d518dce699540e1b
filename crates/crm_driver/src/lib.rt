//! What the compensator of a resource is told of an attempt's outcome, and what it does then.
//!
//! [`Compensator`] is an object that is told of the phases of an attempt, record by record (docs/RULES.md, "Outcome"
//! and "Phase"). [`prepare`], [`commit`] and [`abort`] deliver one phase to any of them, and [`RowCompensator`] is the one
//! that keeps the outside rows of a resource.
//!
//! Contracts see of a compensator what it heard, the records that were delivered since its last begin, how many calls
//! more it can take, and its rules (`specs/Compensators.antt`). What a phase does to the site is a list of puts, one
//! after another: `MakesPuts` of `specs/Puts.antt` says of them what the site's trait says of one.
#![tactic(auto)]

mod compensator;
mod phases;
mod put;
mod ready;
mod row_compensator;

pub use compensator::Compensator;
pub use phases::{abort, commit, prepare};
pub use put::put_amount;
pub use row_compensator::RowCompensator;
