// Messages and rows that attempts hold, as a plain list that is looked through.
ghost use Rattle.std.specs.Prelude.{◌≡◌, [], ◌∷◌, ◌++◌, IfOk, OnOk, OnErr, IsTrue, ◌==◌};
ghost use Rattle.std.specs.List.{list_any};
ghost use Rattle.qc_base.specs.Rows.{space_eq, row_eq};
ghost use Rattle.qc_rows.specs.Holdings.{is_held, is_row_held, are_free, released};

use qc_base::{NoMemory, Row, Space};
use std::alloc::Global;
use std::marker::Model;

// An attempt with what it holds.
#[derive(Debug, Drop)]
struct Holder {
    attempt: u64,
    id: u64,
    rows: Vec<Row>,
}

impl Model for Holder {
    ghost use Rattle.qc_rows.specs.Holdings.{Holding};

    ghost Value = { Holding };

    ghost view = { λ h. record { attempt = h.attempt; id = h.id; rows = h.rows.items } };
}

/// The messages and rows that attempts hold (docs/RULES.md, "Take"). Contracts see a list with an entry
/// for each attempt, in the order in which they were taken.
#[derive(Debug, Drop)]
pub struct Held {
    holders: Vec<Holder>,
}

impl Model for Held {
    ghost use Rattle.std.specs.Prelude.{List};
    ghost use Rattle.qc_rows.specs.Holdings.{Holding};

    ghost Value = { List Holding };

    ghost view = { λ h. h.holders.items };
}

impl Holder {
    fn is_of(&self, attempt: u64) -> bool
        ensures { result ≡ (self.now.attempt == attempt) }
    {
        self.attempt == attempt
    }
}

impl Held {
    /// No attempt holds anything. The error is want of memory.
    pub fn make(alloc: Global) -> Result<Held, NoMemory>
        ensures { IfOk result (λ held. held ≡ []) }
    {
        Ok(Held {
            holders: Vec::new(alloc),
        })
    }

    /// The attempt holds the message and the rows, none of which is held. The error is want of memory, and nothing
    /// has changed then.
    pub fn hold(
        &mut self,
        alloc: Global,
        attempt: u64,
        id: u64,
        rows: &[Row],
    ) -> Result<(), NoMemory>
        requires { IsTrue (are_free self.old rows.now) }
        ensures held { OnOk result
            (self.new ≡ self.old ++ record { attempt = attempt; id = id; rows = rows.now } ∷ []) }
        ensures same { OnErr result (self.new ≡ self.old) }
    {
        let rows = Vec::from_slice(alloc, rows).map_err(|_| NoMemory)?;
        let holder = Holder { attempt, id, rows };
        self.holders.push(holder).map_err(|_| NoMemory)
    }

    /// Whether no attempt holds any of the rows.
    pub fn is_free(&self, rows: &[Row]) -> bool
        ensures { result ≡ are_free self.now rows.now }
    {
        for row in rows {
            if self.has_row(row) {
                return false;
            }
        }
        true
    }

    /// Whether an attempt holds the message.
    pub fn has(&self, id: u64) -> bool
        ensures { result ≡ is_held self.now id }
    {
        for holder in self.holders.iter() {
            if holder.id == id {
                return true;
            }
        }
        false
    }

    /// The attempt holds nothing any more. All else stays held, and this takes no memory.
    pub fn release(&mut self, attempt: u64)
        ensures { self.new ≡ released attempt self.old }
    {
        self.holders.retain(|holder| !holder.is_of(attempt));
    }

    fn has_row(&self, row: &Row) -> bool
        ensures { result ≡ is_row_held self.now row.now }
    {
        for holder in self.holders.iter() {
            if is_among(row, holder.rows.as_slice()) {
                return true;
            }
        }
        false
    }
}

fn is_among(row: &Row, rows: &[Row]) -> bool
    ensures { result ≡ list_any (row_eq row.now) rows.now }
{
    for other in rows {
        if same_row(row, other) {
            return true;
        }
    }
    false
}

fn same_row(a: &Row, b: &Row) -> bool
    ensures { result ≡ row_eq a.now b.now }
{
    same_space(a.space, b.space)
        && a.name.as_bytes() == b.name.as_bytes()
        && a.key.as_bytes() == b.key.as_bytes()
}

fn same_space(a: Space, b: Space) -> bool
    ensures { result ≡ space_eq a b }
{
    match (a, b) {
        (Space::Inside, Space::Inside) => true,
        (Space::Outside, Space::Outside) => true,
        (Space::Inside, Space::Outside) => false,
        (Space::Outside, Space::Inside) => false,
    }
}
