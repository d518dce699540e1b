//! A keeper of outside rows in SQLite: one table in a file, which the shell `sqlite3` reads, or in memory.
//!
//! `SqliteKeeper` hands each call of the trait `Keeper` on to one prepared statement, counts each fault, and tells
//! nothing of its rows (docs/RULES.md, "The outside rows in SQLite"). The table and its statements are in `table`; the
//! count of faults is in `keeper`.
#![tactic(auto)]

mod keeper;
mod table;
#[cfg(test)]
mod tests;

pub use keeper::{OutsideFile, SqliteKeeper};
