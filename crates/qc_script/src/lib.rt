//! Scripts of methods: what they are, and how they are read.
//!
//! `parse_script` reads the text of a script, and resolves each name in it: a parameter is known by its place from
//! then on, and a table or resource is one of those that were handed in. Where the text is no script, it tells the
//! first line at fault (docs/FORMATS.md, "Scripts"). A `Script` tells its steps, how many of them change something
//! outside, and which resources they name; `rows_of` tells the rows that they name.
//!
//! `script_of` of `specs/Scripts.antt` says which script a text is. It takes the text apart into lines, a line into
//! its words, and the words into a step: `Words`, `Terms`, `Sums` and `Lines` of `specs`. `specs/Naming.antt` says
//! what steps name. They are run by `qc_play`.
#![tactic(auto)]

mod found;
mod line;
mod lists;
mod names;
mod parse;
mod rows;
mod script;
mod step;
mod sums;
mod terms;
#[cfg(test)]
mod tests;
mod verb;
mod words;

pub use lists::Entries;
pub use names::{Names, Param, ParamKind, Params};
pub use parse::parse_script;
pub use rows::{row_at, row_of, rows_of, same_row};
pub use script::{Script, ScriptError};
pub use step::{Cell, Compare, Comparison, Expression, Key, SignedTerm, Step, Term};
