//! The amounts of rows, and what attempts hold.
//!
//! `Tables` begin as a catalogue opens them (`make`). They tell the amount of a row (`amount`), and what a listing of a
//! table shows: its rows whose amount isn't 0 (`list`), and the sum of all (`total`). An attempt copies the amounts of
//! its rows (`copy_rows`) and has places set aside for them (`reserve`); when it commits, they get the amounts of its
//! view, without memory (`apply_view`). What all this is stands in `specs/Tables.antt` and `specs/Settling.antt`, and
//! what it makes of amounts and totals on `views_settle_their_rows`.
//!
//! `OutsideAmounts` are the amounts that a history settles for the rows of resources: as the catalogue names them
//! (`make`), looked up (`amount`), and changed by the view of an attempt that commits (`apply_view`). What they are
//! stands in `specs/Outside.antt`.
//!
//! `Held` begins empty (`make`). An attempt that is taken holds its message and its rows (`hold`), which were free
//! (`has`, `is_free`), and lets them go at its end (`release`).
#![tactic(auto)]

mod held;
#[cfg(test)]
mod held_tests;
mod laws;
mod outside;
#[cfg(test)]
mod outside_tests;
mod table;
mod tables;
#[cfg(test)]
mod tests;

pub use held::Held;
pub use laws::views_settle_their_rows;
pub use outside::OutsideAmounts;
pub use tables::Tables;
