//! An attempt under way over the log of compensations and a site: its calls with what they do outside, the votes of its
//! resources, its phase and its end.
//!
//! The calls in their order:
//!
//! 1. [`Compensators::make`] makes the compensators of the resources that the attempt's scripts may change, and
//!    [`room_for_notices`] the list of what they hear. No later call takes memory.
//! 2. [`run_next`] runs the next call of an attempt and carries its effects out, [`carry_all`] effects alone.
//! 3. [`ask_all`] asks the registered resources whether they are ready, in order of registration, up to the first that
//!    isn't.
//! 4. [`deliver`] gives each of them its commit phase or its abort phase, in which rows are put.
//! 5. [`finish`] writes and forces Done where the attempt was opened.
//!
//! What an attempt does to log and rows is said once, by the machine (`qc_machine`, `specs/Underway.antt`);
//! `specs/Standing.antt` says how log, clerk and site stand for it.
#![tactic(auto)]

mod calls;
mod compensators;
mod laws;
mod phase;
mod votes;

pub use calls::{carry_all, run_next};
pub use compensators::{Compensators, room_for_notices};
pub use laws::what_is_set_aside_is_enough;
pub use phase::{deliver, finish};
pub use votes::ask_all;
