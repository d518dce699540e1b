//! The outside as it really is: the files of a folder, standard streams and the system's clock.
//!
//! A program locks its folder, opens its keeper of rows, opens the site over both, and makes its source and sink:
//!
//! ```text
//! let folder = Folder::lock(&rt, path)?;
//! let keeper = ..;
//! let mut site = RealSite::open(&rt, folder, keeper)?;
//! let mut source = RealSource::over(rt.stdin());
//! let mut sink = RealSink::over(rt.stdout());
//! ```
//!
//! Each object counts its failures and tells nothing of what it holds: what a real file has is known to no proof. What
//! is proved is that each call is safe and ends, that it fails only where the count rose, and what `FileSite` does
//! with its files, whatever answers they give (docs/RULES.md, "A site in a folder"). The calls of a file are a trait,
//! `RawFile`, so that a test can make them fail.
#![tactic(auto)]

mod clock;
mod faults;
mod folder;
mod guarded;
mod osfile;
mod raw;
mod site;
mod streams;

pub use clock::RealClock;
pub use folder::{Folder, OpenError, open_folder};
pub use osfile::OsFile;
pub use raw::{CallError, RawFile};
pub use site::{FileSite, RealSite};
pub use streams::{RealSink, RealSource};
