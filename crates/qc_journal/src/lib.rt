//! The journal: the facts of a history in a log of their own, each of them one group with one entry.
//!
//! A fact is spelled as a tag of one byte and its parts, numbers with the highest byte first. Each fact within its
//! limits has one spelling, and no spelling begins another (docs/FORMATS.md, "Facts"). The file is a log by
//! docs/FORMATS.md, "Frame", with the header `QC-JOURNAL-0001` and byte 10.
//!
//! The calls in their order:
//!
//! 1. [`Journal::make`] leaves a journal without facts.
//! 2. [`Journal::open`] looks at the header and stands before the first fact.
//! 3. [`Journal::next_fact`] gives the facts in order, each with the offset of its entry. At the end it gives None,
//!    closes the end gate where that isn't 0, and from then on facts may be added.
//! 4. [`Journal::reserve`] takes memory for facts, so that nothing after it does. [`size_of_fact`] tells how much one
//!    takes; four bytes come on top.
//! 5. [`Journal::append_forced`] adds a fact. A crash at any moment leaves it whole or not at all, and from `Ok` on each
//!    later crash has it.
//!
//! [`write_fact`] and [`read_fact`] are the codec alone. After an error the journal is opened again.
#![tactic(auto)]

mod fact_reader;
mod fact_size;
mod fact_writer;
mod journal;

pub use fact_reader::read_fact;
pub use fact_size::size_of_fact;
pub use fact_writer::write_fact;
pub use journal::Journal;
