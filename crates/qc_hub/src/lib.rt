//! One order is one step of the machine.
//!
//! `Hub::create` makes a site from a catalogue's text, and `Hub::open` reads the site's logs. `Hub::apply` answers an
//! order. A `send` or a commit, the end of an attempt and a switch add one fact to the journal; the other orders on
//! recorders and attempts change what clients and players hold, and a listing changes nothing. A refused order changes
//! nothing but the last moment seen. After `SiteFault` the hub is in fault, and the site is opened anew.
//!
//! The steps are those of `qc_machine`. `specs/Stands.antt` says what the fields of a hub mean there, and
//! `specs/Calls.antt` what each call is given and what it leaves, over any site and any step. `changes` has all code by
//! which an order changes the site; each family of orders has a module (`recording`, `sending`, `taking`, `playing`,
//! `moving`, `switching`, `listing`, `table`, `outside`). `clients` has the recorders, and `rooms` tells where a log has no room.
#![tactic(auto)]

mod changes;
mod clients;
mod creation;
mod error;
mod hub;
mod listing;
mod moving;
mod opening;
mod outside;
mod playing;
mod recording;
mod rooms;
mod route;
mod sending;
mod switching;
mod table;
mod taking;

pub use error::HubError;
pub use hub::Hub;
pub use qc_creation::{CreateError, is_made};
