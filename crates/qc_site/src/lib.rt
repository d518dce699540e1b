//! The outside of the service, as its code sees it: the site (three files and the rows outside them), a keeper of
//! rows, sources and sinks of bytes, a door for connections, a clock, and what starts threads.
//!
//! Each trait says what its calls mean and counts its faults. A call answers a failure only where that count rose in
//! this call (or stands at the end of a u64), so code that is generic over a trait can't make up a failure. What an
//! object holds is known where it tells it: the objects in memory do, and real files and streams don't.
//!
//! What a disk may do between two syncs is docs/RULES.md, "Disk rules"; `specs/Disk.antt` has the same as relations.
#![tactic(auto)]

mod clock;
mod door;
mod keeper;
mod site;
mod spawner;
mod streams;

pub use clock::{Clock, Gate, GateStage};
pub use door::{Door, Next};
pub use keeper::Keeper;
pub use site::{Failed, RowFault, Site, SiteFile};
pub use spawner::{Job, Spawner};
pub use streams::{Link, Sink, Source};
